// The text of a sweep.
ghost use Rattle.std.specs.Prelude.{◌≡◌, ◌++◌, ◌∷◌, [], codes, map, List, OnOk, IfOk, Some, string_bytes};
ghost use Rattle.base.specs.TextLines.{line_text, text_of};
ghost use Rattle.sharing_rules.specs.AccessLists.{AccessList};
ghost use Rattle.trace_format.specs.declared.record.TraceRecord.{TraceRecord as Record};
ghost use Rattle.layout_sweep.specs.Seen.{HasSwept, sweep_of_records};
ghost use Rattle.layout_sweep.specs.Standing.{StandsFor};
ghost use Rattle.layout_sweep.specs.Texts.{head_lines, least_line, shift_line, sweep_lines};
ghost use Rattle.layout_sweep.specs.Texts.{sweep_text};

use crate::counts::Swept;
use crate::sweep::Sweep;
use base::NoMemory;
use std::alloc::{AllocError, Global};

// The line of a shift.
fn push_shift(text: &mut String, swept: &Swept) -> Result<(), AllocError>
    ensures { OnOk result (string_bytes text.new
        ≡ string_bytes text.old ++ line_text (shift_line swept.now)) }
{
    let shift = swept.shift;
    let total = swept.total;
    let lines = swept.lines;
    writeln!(text, "shift {shift} total {total} lines {lines}")
}

// The lines of all shifts.
fn push_shifts(text: &mut String, counts: &[Swept]) -> Result<(), AllocError>
    ensures { OnOk result (string_bytes text.new
        ≡ string_bytes text.old ++ text_of (map shift_line counts.now)) }
{
    for swept in counts {
        push_shift(text, swept)?;
    }
    Ok(())
}

// The lines before those of the shifts.
fn push_head(
    text: &mut String,
    size: u32,
    accesses: u64,
    whole: Option<u64>,
) -> Result<(), AllocError>
    ensures { OnOk result (string_bytes text.new
        ≡ string_bytes text.old ++ text_of (head_lines size accesses whole)) }
{
    match whole {
        None => writeln!(text, "sweep {size}\naccesses {accesses}"),
        Some(whole) => writeln!(text, "sweep {size}\naccesses {accesses}\nwhole {whole}"),
    }
}

// The lines behind those of the shifts.
fn push_least(text: &mut String, least: Swept) -> Result<(), AllocError>
    ensures { OnOk result (string_bytes text.new
        ≡ string_bytes text.old ++ text_of (least_line least ∷ (codes "end" ∷ []) ∷ [])) }
{
    let shift = least.shift;
    let total = least.total;
    writeln!(text, "least {shift} total {total}\nend")
}

// The whole text.
fn push_sweep(
    text: &mut String,
    size: u32,
    accesses: u64,
    whole: Option<u64>,
    counts: &[Swept],
    least: Swept,
) -> Result<(), AllocError>
    ensures { OnOk result (string_bytes text.new
        ≡ string_bytes text.old ++ text_of (sweep_lines size accesses whole counts.now
        (Some least))) }
{
    push_head(text, size, accesses, whole)?;
    push_shifts(text, counts)?;
    push_least(text, least)
}

/// The text of a sweep: the line size, how many accesses there are, of a filtered trace how many the
/// whole one has, of each shift the total and the
/// number of lines, and the least one.
pub fn write_sweep(alloc: Global, sweep: &Sweep, whole: Option<u64>) -> Result<Vec<u8>, NoMemory>
    ensures of_list { (t : AccessList) → StandsFor t sweep.now
        → IfOk result (λ text. text.items ≡ sweep_text sweep.now.size whole t) }
    // where it has seen these records from nothing on, it is that of the records
    ensures of_records { (begun : Sweep) (items : List Record) → StandsFor [] begun
        → HasSwept begun sweep.now items
        → IfOk result (λ text. text.items ≡ sweep_of_records begun.size whole items) }
{
    let mut text = String::new(alloc);
    let size = sweep.size();
    let accesses = sweep.position();
    push_sweep(
        &mut text,
        size,
        accesses,
        whole,
        sweep.counts(),
        sweep.least(),
    )?;
    Ok(text.into_bytes())
}
