// The text of the lines that are taken.
ghost use Rattle.std.specs.Prelude.{◌≡◌, ◌++◌, IfOk, List, OnOk, codes, flat_map};
ghost use Rattle.std.specs.Prelude.{map};
ghost use Rattle.std.specs.Fmt.{decimal};
ghost use Rattle.base.specs.Lines.{Grid};
ghost use Rattle.base.specs.TextLines.{text_of};
ghost use Rattle.report.specs.Added.{AddsLine, AddsLines, AddsText};
ghost use Rattle.invalidations.specs.BlameKept.{StandsFor, nothing_blamed};
ghost use Rattle.invalidations.specs.BlameRecords.{HasBlamed, blame_of_records};
ghost use Rattle.invalidations.specs.BlameRows.{gathered_at, gathered_lines, kept_text, numbers};
ghost use Rattle.invalidations.specs.BlameRows.{with_rows};
ghost use Rattle.invalidations.specs.BlameText.{blame_ends, blame_heads, blame_text, count_lines};
ghost use Rattle.invalidations.specs.BlameText.{lines_of_line};
ghost use Rattle.invalidations.specs.Text.{hart_line, hart_lines, pair_line, pair_lines};
ghost use Rattle.invalidations.specs.declared.sited.Sited.{Sited as ASited};
ghost use Rattle.trace_format.specs.declared.record.TraceRecord.{TraceRecord as Record};

use crate::blame::Blame;
use crate::blame_rows::{
    LineRows, TakenHead, gather, harts_in_order, pairs_in_order, rows_of_line, sorted_heads,
};
use crate::sited::Sides;
use crate::tables::Taken;
use crate::text::{push_end, push_hart, push_pair};
use base::{Layout, NoMemory, push_address_past};
use indexmap::IndexMap;
use std::alloc::{AllocError, Global};

// The first line.
fn push_title(text: &mut String) -> Result<(), AllocError>
    ensures { OnOk result (AddsText text.old text.new (codes "predator blame 1\n")) }
{
    text.push_str("predator blame 1\n")
}

// The numbers of all.
fn push_counts(
    text: &mut String,
    layout: Layout,
    accesses: u64,
    whole: Option<u64>,
    lines: usize,
) -> Result<(), AllocError>
    ensures { OnOk result (AddsLines text.old text.new (count_lines layout accesses whole lines)) }
{
    let size = layout.size();
    let offset = layout.offset();
    match whole {
        None => writeln!(
            text,
            "accesses {accesses}\nlayout {size} {offset}\nlines {lines}"
        ),
        Some(whole) => writeln!(
            text,
            "accesses {accesses}\nwhole {whole}\nlayout {size} {offset}\nlines {lines}"
        ),
    }
}

// The first lines.
fn push_heads(
    text: &mut String,
    layout: Layout,
    accesses: u64,
    whole: Option<u64>,
    lines: usize,
) -> Result<(), AllocError>
    ensures { OnOk result (AddsLines text.old text.new (blame_heads layout accesses whole lines)) }
{
    push_title(text)?;
    push_counts(text, layout, accesses, whole, lines)
}

// A line with its numbers.
fn push_numbers(
    text: &mut String,
    head: &TakenHead,
    pairs: usize,
    harts: usize,
) -> Result<(), AllocError>
    ensures { OnOk result (AddsLine text.old text.new (numbers head.now pairs harts)) }
{
    let invalidations = head.invalidations;
    text.push_str("line ")?;
    push_address_past(text, head.line.range().base, 0)?;
    writeln!(text, " takings {invalidations} pairs {pairs} harts {harts}")
}

// The lines of pairs of instructions.
fn push_pairs(text: &mut String, pairs: &[(Sides, Taken)]) -> Result<(), AllocError>
    ensures { OnOk result (AddsLines text.old text.new (map pair_line pairs.now)) }
{
    for pair in pairs {
        push_pair(text, pair)?;
    }
    Ok(())
}

// The lines of pairs of harts.
fn push_harts(text: &mut String, harts: &[(Sides, Taken)]) -> Result<(), AllocError>
    ensures { OnOk result (AddsLines text.old text.new (map hart_line harts.now)) }
{
    for pair in harts {
        push_hart(text, pair)?;
    }
    Ok(())
}

// The pairs of instructions of a line, in their order.
fn push_pairs_in_order(
    text: &mut String,
    alloc: Global,
    pairs: &[(Sides, Taken)],
) -> Result<(), NoMemory>
    ensures { OnOk result (AddsLines text.old text.new (pair_lines pairs.now)) }
{
    let sorted = pairs_in_order(alloc, pairs)?;
    push_pairs(text, &sorted)?;
    Ok(())
}

// The pairs of harts of a line, in their order.
fn push_harts_in_order(
    text: &mut String,
    alloc: Global,
    harts: &[(Sides, Taken)],
) -> Result<(), NoMemory>
    ensures { OnOk result (AddsLines text.old text.new (hart_lines harts.now)) }
{
    let sorted = harts_in_order(alloc, harts)?;
    push_harts(text, &sorted)?;
    Ok(())
}

// A line with its rows.
fn push_line(
    text: &mut String,
    alloc: Global,
    head: &TakenHead,
    pairs: &[(Sides, Taken)],
    harts: &[(Sides, Taken)],
) -> Result<(), NoMemory>
    ensures { OnOk result (AddsLines text.old text.new
        (lines_of_line (with_rows (λ r. pairs.now) (λ r. harts.now) head.now))) }
{
    push_numbers(text, head, pairs.len(), harts.len())?;
    push_pairs_in_order(text, alloc, pairs)?;
    push_harts_in_order(text, alloc, harts)
}

// The lines, each with its rows.
fn push_lines(
    text: &mut String,
    alloc: Global,
    heads: &[TakenHead],
    pairs: &IndexMap<u64, LineRows>,
    harts: &IndexMap<u64, LineRows>,
) -> Result<(), NoMemory>
    ensures { OnOk result (AddsLines text.old text.new (flat_map (λ h. lines_of_line
        (with_rows (gathered_at pairs.now.entries) (gathered_at harts.now.entries) h))
        heads.now)) }
{
    for head in heads {
        let number = head.line.number();
        let pair_rows = rows_of_line(pairs, number);
        let hart_rows = rows_of_line(harts, number);
        push_line(text, alloc, head, pair_rows, hart_rows)?;
    }
    Ok(())
}

// How many invalidations there are in all.
fn push_total(text: &mut String, total: u64) -> Result<(), AllocError>
    ensures { OnOk result (AddsText text.old text.new
        (codes "total takings " ++ decimal total ++ codes "\n")) }
{
    writeln!(text, "total takings {total}")
}

// The last lines.
fn push_ends(text: &mut String, total: u64) -> Result<(), AllocError>
    ensures { OnOk result (AddsLines text.old text.new (blame_ends total)) }
{
    push_total(text, total)?;
    push_end(text)
}

// The whole text, whose lines stand in order and whose rows are gathered.
fn push_blame(
    text: &mut String,
    alloc: Global,
    blame: &Blame,
    whole: Option<u64>,
    heads: &[TakenHead],
    pairs: &IndexMap<u64, LineRows>,
    harts: &IndexMap<u64, LineRows>,
) -> Result<(), NoMemory>
    ensures { OnOk result (AddsLines text.old text.new
        (gathered_lines blame.now whole heads.now pairs.now.entries harts.now.entries)) }
{
    push_heads(text, blame.layout(), blame.position(), whole, heads.len())?;
    push_lines(text, alloc, heads, pairs, harts)?;
    push_ends(text, blame.total())?;
    Ok(())
}

// The text of gathered rows.
fn text_of_rows(
    alloc: Global,
    blame: &Blame,
    whole: Option<u64>,
    heads: &[TakenHead],
    pairs: &IndexMap<u64, LineRows>,
    harts: &IndexMap<u64, LineRows>,
) -> Result<Vec<u8>, NoMemory>
    ensures { IfOk result (λ text. text.items ≡ text_of
        (gathered_lines blame.now whole heads.now pairs.now.entries harts.now.entries)) }
{
    let mut text = String::new(alloc);
    push_blame(&mut text, alloc, blame, whole, heads, pairs, harts)?;
    Ok(text.into_bytes())
}

/// The text of the lines that are taken: of each, by invalidations falling, how often, by which
/// pairs of instructions and by which harts; and how many invalidations all lines have.
///
/// NoMemory comes where there is no memory for the text, the lines, their rows and their sort.
pub fn write_blame(alloc: Global, blame: &Blame, whole: Option<u64>) -> Result<Vec<u8>, NoMemory>
    ensures kept { IfOk result (λ text. text.items ≡ kept_text blame.now whole) }
    // where it stands for a list, it is the text of the list
    ensures stands { (u : List ASited) → StandsFor u blame.now
        → IfOk result (λ text. text.items ≡ blame_text blame.now.grid whole u) }
    // where it has seen these records from the beginning, it is that of the records
    ensures records { (g : Grid) (items : List Record) → HasBlamed (nothing_blamed g) blame.now items
        → IfOk result (λ text. text.items ≡ blame_of_records g whole items) }
{
    let heads = sorted_heads(alloc, blame.layout(), blame.lines())?;
    let pairs = gather(alloc, blame.pairs())?;
    let harts = gather(alloc, blame.harts())?;
    text_of_rows(alloc, blame, whole, &heads, &pairs, &harts)
}
