ghost use Rattle.numbered.specs.BufferLaw.{Keeps, Shows, CountsOn, StaysWithin, Takes240};

use bodies::body::Body;

// A buffer made by `new`, of one body kind, with one table of one length that nothing else writes, and its limit
// unchanged: after any calls, refused ones too, it holds just the values that were taken and are not gone, or the bare
// numbers past the last of them. It shows each under its number, which counts the values taken from 1 on; and it never
// weighs more than its limit.
pub fn a_buffer_keeps_what_was_inserted<B: Body>()
    ensures kept { Keeps B.Body.bytes B.Body.size }
    ensures shown { Shows B.Body.bytes B.Body.size }
    ensures counted { CountsOn B.Body.bytes B.Body.size }
    ensures within { StaysWithin B.Body.bytes B.Body.size }
{}

// A new buffer of 4,096 bytes takes the first 240 of any events, and refuses every other.
pub fn a_buffer_of_4096_bytes_takes_240_events()
    ensures { Takes240 }
{}
