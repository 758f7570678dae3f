ghost use Rattle.std.specs.Prelude.{◌≡◌, ℕ, List, [], ◌∷◌, MatchOption, ◌≢◌};
ghost use Rattle.script.specs.Words.{Word, EndsWith};

use crate::bytes::split_once;

// The bytes, where they are a word: one or more, and none a space.
fn word(bytes: &[u8]) -> Option<&[u8]>
    ensures { MatchOption result (Word bytes.now → ⊥) (λ w. (w.now ≡ bytes.now) × Word bytes.now) }
{
    if bytes.is_empty() || bytes.contains(&b' ') {
        return None;
    }
    Some(bytes)
}

// What stands after a space that comes first.
fn after_space(rest: &[u8]) -> Option<&[u8]>
    ensures { MatchOption result ((bytes : List ℕ) → rest.now ≢ 32 ∷ bytes) (λ bytes. rest.now ≡ 32 ∷ bytes.now) }
{
    match rest {
        [b' ', bytes @ ..] => Some(bytes),
        _ => None,
    }
}

// The word that ends a line, after one space.
pub fn one_word(rest: &[u8]) -> Option<&[u8]>
    ensures { MatchOption result ((a : List ℕ) → EndsWith rest.now (a ∷ []) → ⊥) (λ a. EndsWith rest.now (a.now ∷ [])) }
{
    word(after_space(rest)?)
}

// The two words that end a line, each after one space.
pub fn two_words(rest: &[u8]) -> Option<(&[u8], &[u8])>
    ensures { MatchOption result ((a b : List ℕ) → EndsWith rest.now (a ∷ b ∷ []) → ⊥) (λ p. EndsWith rest.now (p.0.now ∷ p.1.now ∷ [])) }
{
    let (first, second) = split_once(after_space(rest)?, b' ')?;
    Some((word(first)?, word(second)?))
}
