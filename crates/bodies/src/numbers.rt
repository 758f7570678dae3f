ghost use Rattle.std.specs.Prelude.{◌≡◌, ℕ, ◌<◌, ◌≤◌, List, ◌++◌, length, MatchOption};
ghost use Rattle.std.proofs.Common.{lit≤};
ghost use Rattle.bodies.specs.Numbers.{be16, be32, be64};

// A number that fills a fixed number of bytes, the highest first.
pub trait Number<const N: usize>: Copy {
    // what a number writes
    ghost bytes: { Self → List ℕ };

    // No number is wider: taking an array off a slice asks that its length is far below the machine's largest number.
    ghost narrow: { N ≤ 8 };

    fn to_bytes(self) -> [u8; N]
        ensures { result ≡ bytes self };

    // The number that the bytes write.
    fn from_bytes(from: [u8; N]) -> Self
        ensures { bytes result ≡ from.entry };

    // The number that the first bytes write, and the bytes behind them.
    fn take(from: &[u8]) -> Option<(Self, &[u8])>
        ensures { MatchOption result (length from.now < N) (λ p. bytes p.0 ++ p.1.now ≡ from.now) }
    {
        let (first, rest) = from.split_first_chunk()?;
        Some((Self::from_bytes(*first), rest))
    }
}

// Each implementation repeats the clause of `from_bytes`, which the check does not take from a trait with a const parameter there.
impl Number<2> for u16 {
    ghost bytes = { be16 };

    ghost narrow = { lit≤ tt };

    fn to_bytes(self) -> [u8; 2] {
        u16::to_be_bytes(self)
    }

    fn from_bytes(from: [u8; 2]) -> u16
        ensures { be16 result ≡ from }
    {
        u16::from_be_bytes(from)
    }
}

impl Number<4> for u32 {
    ghost bytes = { be32 };

    ghost narrow = { lit≤ tt };

    fn to_bytes(self) -> [u8; 4] {
        u32::to_be_bytes(self)
    }

    fn from_bytes(from: [u8; 4]) -> u32
        ensures { be32 result ≡ from }
    {
        u32::from_be_bytes(from)
    }
}

impl Number<8> for u64 {
    ghost bytes = { be64 };

    ghost narrow = { lit≤ tt };

    fn to_bytes(self) -> [u8; 8] {
        u64::to_be_bytes(self)
    }

    fn from_bytes(from: [u8; 8]) -> u64
        ensures { be64 result ≡ from }
    {
        u64::from_be_bytes(from)
    }
}
