ghost use Rattle.std.specs.Prelude.{◌≡◌, ◌≤◌};
ghost use Rattle.bodies.specs.Weights.{weigh, longest_body};

use super::body::Body;

// The bytes of a header, which a message or a buffer's entry weighs beside its body.
pub const HEADER_LENGTH: usize = 8;

// What a message or a buffer's entry of this kind weighs.
pub fn entry_weight<B: Body>() -> usize
    ensures is { result ≡ weigh B.Body.size }
    ensures bounds { (weigh 1 ≤ result) × (result ≤ weigh longest_body) }
{
    HEADER_LENGTH + B::size()
}
