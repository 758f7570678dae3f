ghost use Rattle.line_operators.specs.SessionsLaw.{OwnBegin, Once, Begun};
ghost use Rattle.line_operators.specs.TotalsLaw.{SoFar, Given};

// Where a begin finds a place, the next end of its line gives the call from that begin to that end, whatever other
// lines did between. Until the line begins again no end of it gives anything, nor does one of a line that never began.
pub fn sessions_give_each_call_once()
    ensures own { OwnBegin }
    ensures once { Once }
    ensures begun { Begun }
{}

// A call whose line finds a place is charged, and each charge is the number and the sum of its line's calls so far.
pub fn totals_give_number_and_sum()
    ensures sums { SoFar }
    ensures given { Given }
{}
