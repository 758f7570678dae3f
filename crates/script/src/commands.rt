ghost use Rattle.std.specs.Prelude.{◌≡◌, MatchOption};
ghost use Rattle.script.specs.Words.{EndsWith};
ghost use Rattle.script.specs.Commands.{Spoken, Says, arguments, letter as spell};

use crate::words::{one_word, two_words};

// What a line of a script says, and of what: of words as the line has them, or of the numbers that they write.
#[derive(Clone, Copy, PartialEq, Debug)]
pub enum Command<W> {
    Begin { line: W, stamp: W },
    End { line: W, stamp: W },
    Turn,
    Fail { side: W },
    Avail { side: W },
}

// The command of a letter and of what stands after it.
fn command_of(letter: u8, rest: &[u8]) -> Option<Command<&[u8]>>
    ensures { MatchOption result ((c : Spoken) → spell c ≡ letter → EndsWith rest.now (arguments c) → ⊥) (λ c. (spell c ≡ letter) × EndsWith rest.now (arguments c)) }
{
    match letter as char {
        'b' => {
            let (line, stamp) = two_words(rest)?;
            Some(Command::Begin { line, stamp })
        }
        'e' => {
            let (line, stamp) = two_words(rest)?;
            Some(Command::End { line, stamp })
        }
        't' if rest.is_empty() => Some(Command::Turn),
        'f' => Some(Command::Fail {
            side: one_word(rest)?,
        }),
        'v' => Some(Command::Avail {
            side: one_word(rest)?,
        }),
        _ => None,
    }
}

// The command that a line says, if it says one.
pub fn read_command(line: &[u8]) -> Option<Command<&[u8]>>
    ensures { MatchOption result ((c : Spoken) → Says line.now c → ⊥) (λ c. Says line.now c) }
{
    let (letter, rest) = line.split_first()?;
    command_of(*letter, rest)
}
