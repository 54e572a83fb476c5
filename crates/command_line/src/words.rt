// The call that reads the words.
ghost use Rattle.std.specs.Prelude.{◌≡◌, ◌≢◌, ◌↔◌, IfOk, IsErrAnd, Some, None, Err, false};
ghost use Rattle.command_line.specs.Demands.{texts, IsUsage};
ghost use Rattle.command_line.specs.Words.{IsBounded, IsReadAs, demand_of, is_command, meaning};

use crate::demand::{Demand, WordsFault, read_command};
use crate::reason::Reason;
use std::alloc::Global;

/// What the words after the program's name ask for.
///
/// Usage comes exactly where they name no command, the command refuses the words after it, a number
/// is not decimal digits without leading zeros, below 2^64, the layout isn't allowed, a trace of
/// more than 10^9 accesses is asked for, a size to sweep or of a line is none, `--set` names no key,
/// one twice or no number, pcs are asked for without a trace, or the name of an output equals the
/// name of another output or of an input. Want of memory may come before any of them but the first.
pub fn read_words<'a>(alloc: Global, words: &'a [String]) -> Result<Demand<'a>, WordsFault<'a>>
    ensures accepted { IfOk result (λ demand. demand_of (texts words.now) ≡ Some (meaning demand)) }
    ensures refused { result ≢ Err WordsFault.NoMemory → (IsErrAnd result IsUsage)
        ↔ (demand_of (texts words.now) ≡ None) }
    // What is asked for is within its bounds.
    ensures bounded { IfOk result IsBounded }
    // The first two in one.
    ensures read { IsReadAs (demand_of (texts words.now)) result }
    // Words that name no command want no memory.
    ensures unknown { is_command (texts words.now) ≡ false → IsErrAnd result IsUsage }
{
    let Some(command) = words.first() else {
        return Err(WordsFault::Usage(Reason::NoCommand));
    };
    read_command(alloc, command.as_str(), words)
}
