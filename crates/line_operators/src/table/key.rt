ghost use Rattle.std.specs.Prelude.{◌≡◌, ℕ, ⊤, refl};
ghost use Rattle.std.specs.Ordering.{nat_cmp};

// Keys that stand in the order of numbers.
pub trait Ranked: Ord + Copy {
    // the number that a key stands for
    ghost rank: { Self → ℕ };

    // Which keys compare so. In a law a number has no largest value: a key of two numbers stands for one number only where both are
    // below theirs.
    ghost within: { Self → Type 0 };

    // such keys compare as their numbers
    ghost ranked: { (a b : Self) → within a → within b → Self.Ord.cmp a b ≡ nat_cmp (rank a) (rank b) };
}

// A line of 32 bits stands for itself.
impl Ranked for u32 {
    ghost rank = { λ line. line };

    ghost within = { λ _. ⊤ };

    ghost ranked = { λ a b _ _. refl };
}
