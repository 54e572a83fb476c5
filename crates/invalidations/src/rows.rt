// The rows of the tables, in the order in which they are printed.
ghost use Rattle.std.specs.Prelude.{◌≡◌, IfOk};
ghost use Rattle.std.specs.Ordering.{is_lt};
ghost use Rattle.sharing_rules.specs.Listed.{in_order};
ghost use Rattle.invalidations.specs.Rows.{is_hart_row_before, is_pair_row_before, is_sides_before};
ghost use Rattle.invalidations.specs.Rows.{is_site_row_before};

use crate::sited::Sides;
use crate::tables::Taken;
use base::NoMemory;
use indexmap::IndexMap;
use sharing_rules::Word;
use std::alloc::Global;
use std::cmp::Ordering;

// By pc rising.
fn site_order(one: &(u32, Word), other: &(u32, Word)) -> Ordering
    ensures { is_lt result ≡ is_site_row_before one.now other.now }
{
    one.0.cmp(&other.0)
}

// By the victim's number rising, then by the taker's.
fn sides_order(one: &Sides, other: &Sides) -> Ordering
    ensures { is_lt result ≡ is_sides_before one.now other.now }
{
    match one.victim.cmp(&other.victim) {
        Ordering::Equal => one.taker.cmp(&other.taker),
        by_victim => by_victim,
    }
}

/// By sides rising.
pub(crate) fn hart_order(one: &(Sides, Taken), other: &(Sides, Taken)) -> Ordering
    ensures { is_lt result ≡ is_hart_row_before one.now other.now }
{
    sides_order(&one.0, &other.0)
}

/// By invalidations falling, then by sides rising.
pub(crate) fn pair_order(one: &(Sides, Taken), other: &(Sides, Taken)) -> Ordering
    ensures { is_lt result ≡ is_pair_row_before one.now other.now }
{
    match other.1.taken.cmp(&one.1.taken) {
        Ordering::Equal => sides_order(&one.0, &other.0),
        by_invalidations => by_invalidations,
    }
}

// The rows of sites as they stand.
fn site_rows(alloc: Global, sites: &IndexMap<u32, Word>) -> Result<Vec<(u32, Word)>, NoMemory>
    ensures { IfOk result (λ rows. rows.items ≡ sites.now.entries) }
{
    let mut rows = Vec::new(alloc);
    for i in 0..sites.len() {
        match sites.get_index(i) {
            Some((pc, word)) => rows.push((*pc, *word))?,
            None => unreachable!(),
        }
    }
    Ok(rows)
}

// The rows of invalidations as they stand.
fn taken_rows(
    alloc: Global,
    table: &IndexMap<Sides, Taken>,
) -> Result<Vec<(Sides, Taken)>, NoMemory>
    ensures { IfOk result (λ rows. rows.items ≡ table.now.entries) }
{
    let mut rows = Vec::new(alloc);
    for i in 0..table.len() {
        match table.get_index(i) {
            Some((sides, taken)) => rows.push((*sides, *taken))?,
            None => unreachable!(),
        }
    }
    Ok(rows)
}

/// The sites by rising pc.
pub(crate) fn sorted_sites(
    alloc: Global,
    sites: &IndexMap<u32, Word>,
) -> Result<Vec<(u32, Word)>, NoMemory>
    ensures { IfOk result (λ rows. rows.items ≡ in_order is_site_row_before sites.now.entries) }
{
    let mut rows = site_rows(alloc, sites)?;
    rows.sort_by(site_order)?;
    Ok(rows)
}

/// The pairs of instructions by invalidations falling, then by the victim's pc rising, then by the
/// taker's.
pub(crate) fn sorted_pairs(
    alloc: Global,
    pairs: &IndexMap<Sides, Taken>,
) -> Result<Vec<(Sides, Taken)>, NoMemory>
    ensures { IfOk result (λ rows. rows.items ≡ in_order is_pair_row_before pairs.now.entries) }
{
    let mut rows = taken_rows(alloc, pairs)?;
    rows.sort_by(pair_order)?;
    Ok(rows)
}

/// The pairs of harts by the victim's rising, then by the taker's.
pub(crate) fn sorted_harts(
    alloc: Global,
    harts: &IndexMap<Sides, Taken>,
) -> Result<Vec<(Sides, Taken)>, NoMemory>
    ensures { IfOk result (λ rows. rows.items ≡ in_order is_hart_row_before harts.now.entries) }
{
    let mut rows = taken_rows(alloc, harts)?;
    rows.sort_by(hart_order)?;
    Ok(rows)
}
