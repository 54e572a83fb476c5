// One write more of a line.
ghost use Rattle.std.specs.Prelude.{◌≡◌, ℕ, ◌<◌, ◌≤◌, ◌^◌, ◌==◌, if◌then◌else◌, OnOk, OnErr, false};
ghost use Rattle.detector.specs.Entries.{blank_entry, entry_at};
ghost use Rattle.detector.specs.Counts.{counts_of, with_write};
ghost use Rattle.detector.specs.Tasks.{counted};

use crate::LineIndex;
use base::NoMemory;

/// Counts a write of a line. NoMemory comes only for a line that has no place, and so no write and
/// no track.
#[inline(always)]
pub fn count<I: LineIndex>(index: &mut I, line: u64) -> Result<(), NoMemory>
    requires small { line ≤ 2 ^ 30 }
    requires few { (entry_at (I.entries index.old) line).writes < 2 ^ 40 }
    ensures counts { OnOk result
        (counts_of (I.entries index.new) ≡ with_write (counts_of (I.entries index.old)) line) }
    ensures each { OnOk result ((q : ℕ) → entry_at (I.entries index.new) q
        ≡ (if q == line then counted (entry_at (I.entries index.old) line)
        else entry_at (I.entries index.old) q)) }
    ensures same { OnErr result (I.entries index.new ≡ I.entries index.old) }
    ensures unplaced { OnErr result (I.has_place index.old line ≡ false) }
    ensures blank { OnErr result (entry_at (I.entries index.old) line ≡ blank_entry) }
{
    match index.entry(line) {
        Ok(entry) => {
            entry.writes += 1;
            Ok(())
        }
        Err(refused) => Err(refused),
    }
}
