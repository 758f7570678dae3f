ghost use Rattle.std.specs.Prelude.{◌≡◌};
ghost use Rattle.script.specs.Numbers.{decimal, with_digit, NumbersRight};

// The number with one more digit, where the byte is one and the number stays within 32 bits.
fn with_digit(number: u32, byte: u8) -> Option<u32>
    ensures { result ≡ with_digit number byte }
{
    match byte {
        b'0'..=b'9' => number.checked_mul(10)?.checked_add(u32::from(byte - b'0')),
        _ => None,
    }
}

// The number that a word writes in decimal digits, where it fits 32 bits.
pub fn read_number(word: &[u8]) -> Option<u32>
    ensures number { result ≡ decimal word.now }
    ensures right { NumbersRight }
{
    if word.is_empty() {
        return None;
    }
    let mut number: u32 = 0;
    for byte in word {
        number = with_digit(number, *byte)?;
    }
    Some(number)
}
