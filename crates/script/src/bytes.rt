ghost use Rattle.std.specs.Prelude.{◌≡◌, ◌∷◌, ◌++◌, MatchOption};
ghost use Rattle.script.specs.Bytes.{Without};

// What stands before the first mark and what stands after it, where there is one.
pub fn split_once(bytes: &[u8], mark: u8) -> Option<(&[u8], &[u8])>
    ensures { MatchOption result (Without mark bytes.now) (λ p. Without mark p.0.now × (bytes.now ≡ p.0.now ++ mark ∷ p.1.now)) }
{
    let place = bytes.iter().position(|byte| *byte == mark)?;
    Some((&bytes[..place], &bytes[place + 1..]))
}
