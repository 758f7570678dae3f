// The block test for programs in C, as a static library. No crate can stand on a static library, so it is one of its own.
#![tactic(auto)]

ghost use Rattle.std.specs.Prelude.{◌≡◌};
ghost use Rattle.blocks.specs.Tests.{first_fault};
ghost use Rattle.blocks.specs.OneByte.{NoByteHides};
ghost use Rattle.blocks_for_c.specs.Answers.{expected_of, answer_of};

use blocks::block_test::{Expected, test_block};

// The block that is expected by its number; of block 0 the count and the version are not looked at.
fn expected_of(number: u16, count: u16, version: u16) -> Expected
    ensures { result ≡ expected_of number count version }
{
    match number {
        0 => Expected::First,
        _ => Expected::Next {
            number,
            count,
            version,
        },
    }
}

// The block test: 0, or the number of the first fault.
#[unsafe(no_mangle)]
pub extern "C" fn lampgrouse_test_block(block: &[u8], number: u16, count: u16, version: u16) -> u32
    ensures answer { result ≡ answer_of (first_fault block.now (expected_of number count version)) }
    ensures one_byte { result ≡ 0 → NoByteHides block.now }
{
    match test_block(block, expected_of(number, count, version)) {
        Ok(_) => 0,
        Err(fault) => fault.into(),
    }
}
