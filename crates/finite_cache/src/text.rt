// The text of caches.
ghost use Rattle.std.specs.Prelude.{◌≡◌, ◌++◌, IfOk, List, OnOk, codes, filter, map};
ghost use Rattle.std.specs.Prelude.{option_to_list};
ghost use Rattle.std.specs.Fmt.{decimal};
ghost use Rattle.std.specs.Ordering.{is_lt};
ghost use Rattle.base.specs.TextLines.{text_of};
ghost use Rattle.report.specs.Added.{AddsLine, AddsLines, AddsText};
ghost use Rattle.report.specs.Lines.{rest_of_line};
ghost use Rattle.sharing_rules.specs.AccessLists.{AccessList};
ghost use Rattle.trace_format.specs.declared.record.TraceRecord.{TraceRecord as Record};
ghost use Rattle.base.specs.Shapes.{CacheShape};
ghost use Rattle.finite_cache.specs.CacheState.{StandsFor, nothing_kept, row_kept};
ghost use Rattle.finite_cache.specs.Seen.{HasSeen, caches_of_records};
ghost use Rattle.finite_cache.specs.Texts.{caches_text, comes_first, count_words, end_lines};
ghost use Rattle.finite_cache.specs.Texts.{head_lines, is_reported, lines_of_caches, row_line};
ghost use Rattle.finite_cache.specs.Texts.{reported_rows, total_line};

use crate::caches::Caches;
use crate::rows::{CacheRow, Totals};
use base::{NoMemory, Shape, push_address_past};
use std::alloc::{AllocError, Global};
use std::cmp::Ordering;

// By unbounded falling, then by base rising.
fn order(one: &CacheRow, other: &CacheRow) -> Ordering
    ensures { is_lt result ≡ comes_first one.now other.now }
{
    match other.unbounded.cmp(&one.unbounded) {
        Ordering::Equal => one.range.base.cmp(&other.range.base),
        by_unbounded => by_unbounded,
    }
}

// Puts a row behind the others, if it is reported.
fn push_reported(rows: &mut Vec<CacheRow>, row: Option<CacheRow>) -> Result<(), NoMemory>
    ensures { OnOk result (rows.new.items ≡ rows.old.items
        ++ filter is_reported (option_to_list row)) }
{
    if let Some(row) = row {
        if row.unbounded > 0 {
            rows.push(row)?;
        }
    }
    Ok(())
}

// The reported rows, in the order of first writes.
fn unsorted(alloc: Global, caches: &Caches) -> Result<Vec<CacheRow>, NoMemory>
    ensures { IfOk result (λ rows. rows.items ≡ filter is_reported
        (map (row_kept caches.now.shape caches.now.parts.lines) caches.now.parts.rows)) }
{
    let mut rows = Vec::new(alloc);
    for i in 0..caches.row_count() {
        push_reported(&mut rows, caches.row(i))?;
    }
    Ok(rows)
}

// The reported rows, in their order.
fn sorted(alloc: Global, caches: &Caches) -> Result<Vec<CacheRow>, NoMemory>
    ensures { IfOk result (λ rows. rows.items ≡ reported_rows
        (map (row_kept caches.now.shape caches.now.parts.lines) caches.now.parts.rows)) }
{
    let mut rows = unsorted(alloc, caches)?;
    rows.sort_by(order)?;
    Ok(rows)
}

// How often a line was taken in bounded caches.
fn push_bounded(text: &mut String, bounded: u64) -> Result<(), AllocError>
    ensures { OnOk result (AddsText text.old text.new (codes " bounded " ++ decimal bounded)) }
{
    write!(text, " bounded {bounded}")
}

// How often in unbounded ones.
fn push_unbounded(text: &mut String, unbounded: u64) -> Result<(), AllocError>
    ensures { OnOk result (AddsText text.old text.new
        (codes " unbounded " ++ decimal unbounded)) }
{
    write!(text, " unbounded {unbounded}")
}

// How often it was evicted, and the end of its line.
fn push_evictions(text: &mut String, evicted: u64) -> Result<(), AllocError>
    ensures { OnOk result (AddsText text.old text.new
        (codes " evicted " ++ decimal evicted ++ codes "\n")) }
{
    writeln!(text, " evicted {evicted}")
}

// The end of a line of counts.
fn push_counts(
    text: &mut String,
    bounded: u64,
    unbounded: u64,
    evicted: u64,
) -> Result<(), AllocError>
    ensures { OnOk result (AddsText text.old text.new
        (rest_of_line (count_words bounded unbounded evicted))) }
{
    push_bounded(text, bounded)?;
    push_unbounded(text, unbounded)?;
    push_evictions(text, evicted)
}

// The line of a row.
fn push_row(text: &mut String, row: &CacheRow) -> Result<(), AllocError>
    ensures { OnOk result (AddsLine text.old text.new (row_line row.now)) }
{
    text.push_str("line ")?;
    push_address_past(text, row.range.base, 0)?;
    push_counts(text, row.bounded, row.unbounded, row.evicted)
}

// The lines of the rows.
fn push_rows(text: &mut String, rows: &[CacheRow]) -> Result<(), AllocError>
    ensures { OnOk result (AddsLines text.old text.new (map row_line rows.now)) }
{
    for row in rows {
        push_row(text, row)?;
    }
    Ok(())
}

// The first lines.
fn push_heads(
    text: &mut String,
    shape: Shape,
    accesses: u64,
    lines: usize,
) -> Result<(), AllocError>
    ensures { OnOk result (AddsLines text.old text.new (head_lines shape accesses lines)) }
{
    let size = shape.size();
    let sets = shape.sets();
    let ways = shape.ways();
    writeln!(
        text,
        "caches {size} {sets} {ways}\naccesses {accesses}\nlines {lines}"
    )
}

// The line of the sums.
fn push_total(text: &mut String, total: Totals) -> Result<(), AllocError>
    ensures { OnOk result (AddsLine text.old text.new (total_line total)) }
{
    text.push_str("total")?;
    push_counts(text, total.bounded, total.unbounded, total.evicted)
}

// The last line.
fn push_end(text: &mut String) -> Result<(), AllocError>
    ensures { OnOk result (AddsText text.old text.new (codes "end\n")) }
{
    text.push_str("end\n")
}

// The last lines.
fn push_ends(text: &mut String, total: Totals) -> Result<(), AllocError>
    ensures { OnOk result (AddsLines text.old text.new (end_lines total)) }
{
    push_total(text, total)?;
    push_end(text)
}

// The whole text.
fn push_caches(
    text: &mut String,
    caches: &Caches,
    rows: &[CacheRow],
    total: Totals,
) -> Result<(), AllocError>
    ensures { OnOk result (AddsLines text.old text.new
        (lines_of_caches caches.now.shape caches.now.position rows.now total)) }
{
    push_heads(text, caches.shape(), caches.position(), rows.len())?;
    push_rows(text, rows)?;
    push_ends(text, total)
}

// The text of what is kept, with these sums.
fn write_kept(alloc: Global, caches: &Caches, total: Totals) -> Result<Vec<u8>, NoMemory>
    ensures { IfOk result (λ text. text.items ≡ text_of
        (lines_of_caches caches.now.shape caches.now.position (reported_rows
        (map (row_kept caches.now.shape caches.now.parts.lines) caches.now.parts.rows)) total)) }
{
    let rows = sorted(alloc, caches)?;
    let mut text = String::new(alloc);
    push_caches(&mut text, caches, &rows, total)?;
    Ok(text.into_bytes())
}

/// The text of caches: their shape, of each line that is taken from a hart in unbounded caches its
/// counts, the sums over all lines, and `end`.
///
/// NoMemory comes where there is no memory for the text, or for the reported rows and their sort.
pub fn write_caches(alloc: Global, caches: &Caches) -> Result<Vec<u8>, NoMemory>
    // for each list that they stand for, it is the text of the list
    ensures of_list { (t : AccessList) → StandsFor t caches.now
        → IfOk result (λ text. text.items ≡ caches_text caches.now.shape t) }
    // where they saw these records from the beginning, it is that of the records
    ensures of_records { (k : CacheShape) (items : List Record)
        → HasSeen (nothing_kept k) caches.now items
        → IfOk result (λ text. text.items ≡ caches_of_records k items) }
{
    write_kept(alloc, caches, caches.totals())
}
