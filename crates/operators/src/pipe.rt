ghost use Rattle.std.specs.Prelude.{◌≡◌, ℕ, ◌+◌, ◌<◌, List};
ghost use Rattle.operators.specs.Operators.{listed};
ghost use Rattle.operators.specs.Pipes.{after_all, given_all, pipe_next, pipe_gives, pipe_written, pipe_longest, InTurn};
ghost use Rattle.operators.specs.PipeLaws.{pipe_laws};

use super::operator::Operator;
use bodies::numbers::Number;

// Two operators: what the first, in front, gives goes into the second, at the back.
#[derive(Drop)]
pub struct Pipe<F: Operator, S: Operator<In = F::Out>> {
    pub front: F,
    pub back: S,
}

impl<F: Operator, S: Operator<In = F::Out>> Pipe<F, S> {
    // Takes a value, and shows beside the result what went from the first operator into the second. Two options, though the second has nothing
    // without the first: so each has its clause, where one inside the other would be taken apart by cases in both.
    pub fn take_through(&mut self, value: F::In) -> (Option<F::Out>, Option<S::Out>)
        ensures front { F.Operator.state self.new.front ≡ F.Operator.next (F.Operator.state self.old.front) value }
        ensures back { S.Operator.state self.new.back ≡ after_all S.Operator.next (S.Operator.state self.old.back) (F.Operator.gives (F.Operator.state self.old.front) value) }
        ensures between { listed result.0 ≡ F.Operator.gives (F.Operator.state self.old.front) value }
        ensures given { listed result.1 ≡ given_all S.Operator.next S.Operator.gives (S.Operator.state self.old.back) (F.Operator.gives (F.Operator.state self.old.front) value) }
    {
        let Some(between) = self.front.take(value) else {
            return (None, None);
        };
        (Some(between), self.back.take(between))
    }
}

impl<F: Operator, S: Operator<In = F::Out>> Operator for Pipe<F, S> {
    type In = F::In;

    type Out = S::Out;

    ghost State = { F.Operator.State × S.Operator.State };

    ghost state = { λ p. (F.Operator.state p.front, S.Operator.state p.back) };

    ghost first = { (F.Operator.first, S.Operator.first) };

    ghost next = { pipe_next F.Operator.next F.Operator.gives S.Operator.next };

    ghost gives = { pipe_gives F.Operator.next F.Operator.gives S.Operator.next S.Operator.gives };

    ghost written = { λ s. pipe_written (F.Operator.written s.0) (S.Operator.written s.1) };

    ghost longest = { pipe_longest F.Operator.longest S.Operator.longest };

    ghost laws = { pipe_laws S.Operator.next F.Operator.laws S.Operator.laws };

    fn longest() -> u32 {
        F::longest().saturating_add(S::longest()).saturating_add(4)
    }

    fn start() -> Pipe<F, S> {
        Pipe {
            front: F::start(),
            back: S::start(),
        }
    }

    fn take(&mut self, value: F::In) -> Option<S::Out> {
        self.take_through(value).1
    }

    fn state_length(&self) -> usize {
        self.front
            .state_length()
            .saturating_add(self.back.state_length())
            .saturating_add(4)
    }

    fn write_state(&self, out: &mut [u8]) -> Option<usize> {
        // Nothing is promised of the lengths of such states, so none of them is begun.
        if Self::longest() == u32::MAX {
            return None;
        }
        let front = self.front.state_length();
        let back = self.back.state_length();
        // Each part's length is asked once.
        let whole = front.saturating_add(back).saturating_add(4);
        if out.len() < whole {
            return None;
        }
        out[0..4].copy_from_slice(&(front as u32).to_bytes());
        // Parts of just the states' lengths refuse neither state.
        let _ = self.front.write_state(&mut out[4..4 + front]);
        let _ = self.back.write_state(&mut out[4 + front..whole]);
        Some(whole)
    }

    fn read_state(from: &[u8]) -> Option<Pipe<F, S>> {
        let (length, rest) = u32::take(from)?;
        let (front, back) = rest.split_at_checked(length as usize)?;
        let front = F::read_state(front)?;
        let back = S::read_state(back)?;
        Some(Pipe { front, back })
    }
}

// Over any values, a pipe gives what its second operator gives over all that its first gives.
pub fn pipes_give_in_turn<F: Operator, S: Operator<In = F::Out>>()
    ensures { InTurn F.Operator.next F.Operator.gives S.Operator.next S.Operator.gives }
{}
