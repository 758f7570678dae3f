ghost use Rattle.std.specs.Prelude.{◌≡◌, ℕ, ◌<◌, List, length, None, MatchOption, ◌≢◌};
ghost use Rattle.bodies.specs.Bodies.{Laid};
ghost use Rattle.operators.specs.Operators.{OperatorLaws, Restored, listed, unbounded};

use bodies::body::Body;

// Bytes that no state writes.
#[derive(Clone, Copy, PartialEq, Debug)]
pub struct NoState;

// Takes values of one body kind and gives values of another, by its state and the value alone.
pub trait Operator: Drop {
    type In: Body;

    type Out: Body;

    // what an operator of this make may be in
    ghost State: { Type 0 };

    ghost state: { Self → State };

    ghost first: { State };

    ghost next: { State → Self.In → State };

    // none or one
    ghost gives: { State → Self.In → List Self.Out };

    ghost written: { State → List ℕ };

    // no state writes more bytes, if this is below 4,294,967,295
    ghost longest: { ℕ };

    ghost laws: { OperatorLaws gives written longest };

    fn longest() -> u32
        ensures { result ≡ longest };

    fn start() -> Self
        ensures { state result ≡ first };

    fn take(&mut self, value: Self::In) -> Option<Self::Out>
        ensures after { state self.new ≡ next (state self.old) value }
        ensures given { listed result ≡ gives (state self.old) value };

    // An operator whose longest length is 4,294,967,295 promises nothing of the lengths of its states, nor of reading them; that is a rule
    // of the project, and so the next three say it one by one.

    // How many bytes the state writes.
    fn state_length(&self) -> usize
        ensures { longest < unbounded → result ≡ length (written (state self.now)) };

    // Writes the state over the first of the lent bytes and answers how many; refused where there are too few.
    fn write_state(&self, out: &mut [u8]) -> Option<usize>
        ensures laid { Laid (written (state self.now)) out.old out.new result }
        ensures refused { longest < unbounded → result ≡ None → length out.old < length (written (state self.now)) };

    // The operator whose state the bytes write; refused are bytes that no state writes.
    fn read_state(from: &[u8]) -> Option<Self>
        ensures { longest < unbounded → MatchOption result ((s : State) → written s ≢ from.now) (λ o. written (state o) ≡ from.now) };
}

// Sets an operator to the state that the bytes write; refused bytes leave it as it was.
pub fn restore<P: Operator>(operator: &mut P, from: &[u8]) -> Result<(), NoState>
    ensures { Restored P.Operator.state P.Operator.written P.Operator.longest from.now operator.old operator.new result }
{
    *operator = P::read_state(from).ok_or(NoState)?;
    Ok(())
}
