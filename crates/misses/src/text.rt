// The text of misses.
ghost use Rattle.std.specs.Prelude.{◌≡◌, ◌++◌, IfOk, OnOk, codes, filter, flat_map, map};
ghost use Rattle.std.specs.Prelude.{option_to_list};
ghost use Rattle.std.specs.Ordering.{is_lt};
ghost use Rattle.base.specs.TextLines.{text_of};
ghost use Rattle.misses.specs.Rows.{row_of};
ghost use Rattle.report.specs.Added.{AddsLine, AddsLines, AddsText};
ghost use Rattle.report.specs.Lines.{rest_of_line};
ghost use Rattle.misses.specs.Texts.{cost_words, is_reported, miss_ends, miss_heads};
ghost use Rattle.misses.specs.Texts.{miss_line, miss_lines, misses_lines, reported_rows};
ghost use Rattle.misses.specs.Texts.{total_line, wastes_more};

use crate::all_lines::{Misses, Row};
use crate::line_misses::Costs;
use base::{Layout, NoMemory, push_address_past};
use objects::{ObjectIndex, ObjectTable};
use report::push_objects;
use std::alloc::{AllocError, Global};
use std::cmp::Ordering;

// By useless falling, then by useful falling, then by base rising.
fn order(one: &Row, other: &Row) -> Ordering
    ensures { is_lt result ≡ wastes_more one.now other.now }
{
    match other.costs.useless.cmp(&one.costs.useless) {
        Ordering::Equal => match other.costs.useful.cmp(&one.costs.useful) {
            Ordering::Equal => one.line.range().base.cmp(&other.line.range().base),
            by_useful => by_useful,
        },
        by_useless => by_useless,
    }
}

// Puts a line behind the others, if it is reported.
fn push_reported(rows: &mut Vec<Row>, row: Option<Row>) -> Result<(), NoMemory>
    ensures { OnOk result (rows.new.items ≡ rows.old.items
        ++ filter is_reported (option_to_list row)) }
{
    if let Some(row) = row {
        if row.costs.useful > 0 || row.costs.useless > 0 {
            rows.push(row)?;
        }
    }
    Ok(())
}

// The reported lines, in the order of their first accesses.
fn unsorted(alloc: Global, misses: &Misses) -> Result<Vec<Row>, NoMemory>
    ensures { IfOk result (λ rows. rows.items
        ≡ filter is_reported (map (row_of misses.now.grid) misses.now.lines)) }
{
    let mut rows = Vec::new(alloc);
    for i in 0..misses.line_count() {
        push_reported(&mut rows, misses.row(i))?;
    }
    Ok(rows)
}

// The reported lines, in their order.
fn sorted(alloc: Global, misses: &Misses) -> Result<Vec<Row>, NoMemory>
    ensures { IfOk result (λ rows. rows.items
        ≡ reported_rows (map (row_of misses.now.grid) misses.now.lines)) }
{
    let mut rows = unsorted(alloc, misses)?;
    rows.sort_by(order)?;
    Ok(rows)
}

// The end of a line of costs.
fn push_costs(text: &mut String, costs: Costs) -> Result<(), AllocError>
    ensures { OnOk result (AddsText text.old text.new (rest_of_line (cost_words costs))) }
{
    let cold = costs.cold;
    let useful = costs.useful;
    let useless = costs.useless;
    writeln!(text, " cold {cold} useful {useful} useless {useless}")
}

// The line of a line's costs.
fn push_line(text: &mut String, row: &Row) -> Result<(), AllocError>
    ensures { OnOk result (AddsLine text.old text.new (miss_line row.now)) }
{
    let base = row.line.range().base;
    text.push_str("line ")?;
    push_address_past(text, base, 0)?;
    push_costs(text, row.costs)
}

// A reported line, and what stands on it.
fn push_row(
    text: &mut String,
    row: &Row,
    index: &ObjectIndex<'_>,
    end: u64,
) -> Result<(), AllocError>
    ensures { OnOk result (AddsLines text.old text.new (miss_lines index.now end row.now)) }
{
    push_line(text, row)?;
    push_objects(text, index, row.line.range(), 0, end)
}

// The reported lines.
fn push_rows(
    text: &mut String,
    rows: &[Row],
    index: &ObjectIndex<'_>,
    end: u64,
) -> Result<(), AllocError>
    ensures { OnOk result (AddsLines text.old text.new
        (flat_map (miss_lines index.now end) rows.now)) }
{
    for row in rows {
        push_row(text, row, index, end)?;
    }
    Ok(())
}

// The first lines.
fn push_heads(
    text: &mut String,
    layout: Layout,
    accesses: u64,
    whole: Option<u64>,
    lines: usize,
) -> Result<(), AllocError>
    ensures { OnOk result (AddsLines text.old text.new (miss_heads layout accesses whole lines)) }
{
    let size = layout.size();
    let offset = layout.offset();
    match whole {
        None => writeln!(
            text,
            "misses {size} {offset}\naccesses {accesses}\nlines {lines}"
        ),
        Some(whole) => writeln!(
            text,
            "misses {size} {offset}\naccesses {accesses}\nwhole {whole}\nlines {lines}"
        ),
    }
}

// The line of the sums over all lines.
fn push_total(text: &mut String, total: Costs) -> Result<(), AllocError>
    ensures { OnOk result (AddsLine text.old text.new (total_line total)) }
{
    let cold = total.cold;
    let useful = total.useful;
    let useless = total.useless;
    writeln!(text, "total cold {cold} useful {useful} useless {useless}")
}

// The last line.
fn push_end(text: &mut String) -> Result<(), AllocError>
    ensures { OnOk result (AddsText text.old text.new (codes "end\n")) }
{
    text.push_str("end\n")
}

// The last lines.
fn push_ends(text: &mut String, total: Costs) -> Result<(), AllocError>
    ensures { OnOk result (AddsLines text.old text.new (miss_ends total)) }
{
    push_total(text, total)?;
    push_end(text)
}

// The whole text.
fn push_misses(
    text: &mut String,
    misses: &Misses,
    whole: Option<u64>,
    rows: &[Row],
    total: Costs,
    index: &ObjectIndex<'_>,
) -> Result<(), AllocError>
    ensures { OnOk result (AddsLines text.old text.new
        (misses_lines misses.now.grid misses.now.position whole index.now rows.now total)) }
{
    let accesses = misses.position();
    push_heads(text, misses.layout(), accesses, whole, rows.len())?;
    push_rows(text, rows, index, accesses)?;
    push_ends(text, total)
}

/// The text of misses, with these sums over all lines, and of the objects on the reported lines. Of
/// a filtered trace it also says how many accesses the whole one has.
pub fn write_misses(
    alloc: Global,
    misses: &Misses,
    whole: Option<u64>,
    total: Costs,
    objects: &ObjectTable,
) -> Result<Vec<u8>, NoMemory>
    ensures { IfOk result (λ text. text.items ≡ text_of
        (misses_lines misses.now.grid misses.now.position whole objects.now
        (reported_rows (map (row_of misses.now.grid) misses.now.lines)) total)) }
{
    let rows = sorted(alloc, misses)?;
    let index = ObjectIndex::new(alloc, objects)?;
    let mut text = String::new(alloc);
    push_misses(&mut text, misses, whole, &rows, total, &index)?;
    Ok(text.into_bytes())
}
