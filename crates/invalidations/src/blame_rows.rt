// The rows of the lines that are taken, gathered for the text.
ghost use Rattle.std.specs.Prelude.{◌≡◌, ℕ, ◌++◌, ◌∷◌, [], IfOk, IfSome, OnOk, filter};
ghost use Rattle.std.specs.Prelude.{nat_eq, option_to_list, slice_get, option_map};
ghost use Rattle.std.specs.Ordering.{is_lt};
ghost use Rattle.indexmap.specs.IndexMap.{insert_entry, set_value_at, values};
ghost use Rattle.sharing_rules.specs.Listed.{in_order};
ghost use Rattle.invalidations.specs.BlameKept.{rows_in};
ghost use Rattle.invalidations.specs.BlameRows.{gathered_at, has_invalidations, head_of};
ghost use Rattle.invalidations.specs.BlameRows.{heads_in_order};
ghost use Rattle.invalidations.specs.BlameRows.{heads_of, is_head_before};
ghost use Rattle.invalidations.specs.Rows.{is_hart_row_before, is_pair_row_before};

use crate::blame_tables::{InLine, LineTaken};
use crate::rows::{hart_order, pair_order};
use crate::sited::Sides;
use crate::tables::Taken;
use base::{Layout, NoMemory};
use indexmap::IndexMap;
use sharing_rules::CacheLine;
use std::alloc::Global;
use std::cmp::Ordering;
use std::marker::Model;

/// A line, and how often it is taken.
#[derive(Clone, Copy, Debug)]
pub struct TakenHead {
    pub line: CacheLine,
    pub invalidations: u64,
}

/// The rows of one line in a table.
#[derive(Drop)]
pub struct LineRows {
    rows: Vec<(Sides, Taken)>,
}

impl Model for LineRows {
    ghost use Rattle.std.specs.Prelude.{List};
    ghost use Rattle.invalidations.specs.declared.sited.Sides.{Sides as TheSides};
    ghost use Rattle.invalidations.specs.declared.tables.Taken.{Taken as TheTaken};

    ghost Value = { List (TheSides × TheTaken) };

    ghost view = { λ l. l.rows.items };
}

impl LineRows {
    // One row.
    fn of_one(alloc: Global, row: (Sides, Taken)) -> Result<LineRows, NoMemory>
        ensures { IfOk result (λ l. l ≡ row ∷ []) }
    {
        let mut rows = Vec::new(alloc);
        rows.push(row)?;
        Ok(LineRows { rows })
    }

    // The rows.
    fn rows(&self) -> &[(Sides, Taken)]
        ensures { result.now ≡ self.now }
    {
        &self.rows
    }

    // One row more.
    fn push(&mut self, row: (Sides, Taken)) -> Result<(), NoMemory>
        ensures { OnOk result (self.new ≡ self.old ++ row ∷ []) }
    {
        self.rows.push(row)?;
        Ok(())
    }
}

// By invalidations falling, then by base rising.
fn head_order(one: &TakenHead, other: &TakenHead) -> Ordering
    ensures { is_lt result ≡ is_head_before one.now other.now }
{
    match other.invalidations.cmp(&one.invalidations) {
        Ordering::Equal => one.line.range().base.cmp(&other.line.range().base),
        by_invalidations => by_invalidations,
    }
}

// The line at an index, with its invalidations.
fn head_at(layout: Layout, lines: &IndexMap<u32, LineTaken>, index: usize) -> Option<TakenHead>
    ensures { result ≡ option_map (head_of layout) (slice_get lines.now.entries index) }
{
    match lines.get_index(index) {
        Some((number, line)) => Some(TakenHead {
            line: CacheLine::numbered(layout, u64::from(*number)),
            invalidations: line.invalidations,
        }),
        None => None,
    }
}

// Puts a line behind the others, if it has invalidations.
fn push_head(heads: &mut Vec<TakenHead>, head: Option<TakenHead>) -> Result<(), NoMemory>
    ensures { OnOk result (heads.new.items ≡ heads.old.items
        ++ filter has_invalidations (option_to_list head)) }
{
    if let Some(head) = head {
        if head.invalidations > 0 {
            heads.push(head)?;
        }
    }
    Ok(())
}

// The lines that have invalidations, in the order of their first accesses.
fn heads(
    alloc: Global,
    layout: Layout,
    lines: &IndexMap<u32, LineTaken>,
) -> Result<Vec<TakenHead>, NoMemory>
    ensures { IfOk result (λ heads. heads.items ≡ heads_of layout lines.now.entries) }
{
    let mut heads = Vec::new(alloc);
    for i in 0..lines.len() {
        push_head(&mut heads, head_at(layout, lines, i))?;
    }
    Ok(heads)
}

/// The lines that have invalidations, by invalidations falling, then by base rising.
pub(crate) fn sorted_heads(
    alloc: Global,
    layout: Layout,
    lines: &IndexMap<u32, LineTaken>,
) -> Result<Vec<TakenHead>, NoMemory>
    ensures { IfOk result (λ heads. heads.items ≡ heads_in_order layout lines.now.entries) }
{
    let mut heads = heads(alloc, layout, lines)?;
    heads.sort_by(head_order)?;
    Ok(heads)
}

// Puts a row behind those of the line at an index.
fn push_at(
    gathered: &mut IndexMap<u64, LineRows>,
    index: usize,
    row: (Sides, Taken),
) -> Result<(), NoMemory>
    ensures { OnOk result (IfSome (slice_get (values gathered.old) index)
        (λ rows. gathered.new.entries ≡ set_value_at gathered.old.entries index
        (rows ++ row ∷ []))) }
{
    match gathered.get_index_mut(index) {
        Some(rows) => rows.push(row),
        None => Err(NoMemory),
    }
}

// The first row of a line.
fn push_first(
    alloc: Global,
    gathered: &mut IndexMap<u64, LineRows>,
    line: u64,
    row: (Sides, Taken),
) -> Result<(), NoMemory>
    ensures { OnOk result (gathered.new.entries ≡ insert_entry nat_eq gathered.old.entries line
        (row ∷ [])) }
{
    let rows = LineRows::of_one(alloc, row)?;
    match gathered.insert(line, rows) {
        Ok(_) => Ok(()),
        Err(_) => Err(NoMemory),
    }
}

// Puts a row behind those of its line.
fn push_row(
    alloc: Global,
    gathered: &mut IndexMap<u64, LineRows>,
    line: u64,
    row: (Sides, Taken),
) -> Result<(), NoMemory>
    ensures { OnOk result (gathered.new.entries ≡ insert_entry nat_eq gathered.old.entries line
        (gathered_at gathered.old.entries line ++ row ∷ [])) }
{
    match gathered.get_index_of(&line) {
        Some(index) => push_at(gathered, index, row),
        None => push_first(alloc, gathered, line, row),
    }
}

/// The rows of a table by their lines, those of each line as they stand in the table.
pub(crate) fn gather(
    alloc: Global,
    table: &IndexMap<InLine, Taken>,
) -> Result<IndexMap<u64, LineRows>, NoMemory>
    ensures { IfOk result (λ gathered. (r : ℕ)
        → gathered_at gathered.entries r ≡ rows_in r table.now.entries) }
{
    let mut gathered = IndexMap::new(alloc);
    for i in 0..table.len() {
        match table.get_index(i) {
            Some((key, taken)) => {
                let line = u64::from(key.line);
                push_row(alloc, &mut gathered, line, (key.sides, *taken))?;
            }
            None => unreachable!(),
        }
    }
    Ok(gathered)
}

/// The rows of a line, in no order.
pub(crate) fn rows_of_line(gathered: &IndexMap<u64, LineRows>, line: u64) -> &[(Sides, Taken)]
    ensures { result.now ≡ gathered_at gathered.now.entries line }
{
    match gathered.get(&line) {
        Some(rows) => rows.rows(),
        None => &[],
    }
}

// The rows of a line, to be sorted.
fn copied(alloc: Global, rows: &[(Sides, Taken)]) -> Result<Vec<(Sides, Taken)>, NoMemory>
    ensures { IfOk result (λ copy. copy.items ≡ rows.now) }
{
    let mut copy = Vec::new(alloc);
    for row in rows {
        copy.push(*row)?;
    }
    Ok(copy)
}

/// Pairs of instructions by invalidations falling, then by sides rising.
pub(crate) fn pairs_in_order(
    alloc: Global,
    rows: &[(Sides, Taken)],
) -> Result<Vec<(Sides, Taken)>, NoMemory>
    ensures { IfOk result (λ sorted. sorted.items ≡ in_order is_pair_row_before rows.now) }
{
    let mut sorted = copied(alloc, rows)?;
    sorted.sort_by(pair_order)?;
    Ok(sorted)
}

/// Pairs of harts by sides rising.
pub(crate) fn harts_in_order(
    alloc: Global,
    rows: &[(Sides, Taken)],
) -> Result<Vec<(Sides, Taken)>, NoMemory>
    ensures { IfOk result (λ sorted. sorted.items ≡ in_order is_hart_row_before rows.now) }
{
    let mut sorted = copied(alloc, rows)?;
    sorted.sort_by(hart_order)?;
    Ok(sorted)
}
