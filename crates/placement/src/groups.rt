// The words of an object in groups, by who touches them.
ghost use Rattle.std.specs.Prelude.{◌≡◌, ℕ, ◌*◌, ◌+◌, ◌<◌, ◌≤◌, ◌^◌, [], IfOk, Some, length, map, slice_get, slice_set, suc};
ghost use Rattle.sharing_rules.specs.Places.{below};
ghost use Rattle.placement.specs.Groups.{group_count, group_of as in_group, group_size};
ghost use Rattle.placement.specs.Groups.{group_start};

use base::NoMemory;
use sharing_rules::Owner;
use std::alloc::Global;

// The group of the words of many harts, that of none, and how many groups there are.
const MANY: usize = 256;

const UNTOUCHED: usize = 257;

const GROUPS: usize = 258;

/// The group of the words of many harts.
#[tactic(auto, unfolding(crate::specs::Groups::many_group, crate::specs::Groups::group_count))]
pub(crate) fn many_group() -> usize
    ensures value { result ≡ Rattle.placement.specs.Groups.many_group }
    ensures small { result < group_count }
{
    MANY
}

/// How many groups there are.
#[tactic(auto, unfolding(crate::specs::Groups::group_count))]
pub(crate) fn group_total() -> usize
    ensures value { result ≡ group_count }
    ensures few { result ≤ 512 }
{
    GROUPS
}

/// The group of a word: its hart's, that of many, or that of none.
#[tactic(auto, unfolding(crate::specs::Groups::many_group, crate::specs::Groups::untouched_group, crate::specs::Groups::group_count))]
#[inline(always)]
pub(crate) fn group_of(owner: Owner) -> usize
    ensures value { result ≡ in_group owner }
    ensures small { result < group_count }
{
    match owner {
        Owner::One(hart) => usize::from(hart.number()),
        Owner::Many => MANY,
        Owner::None => UNTOUCHED,
    }
}

/// The least multiple of a line size from a number on.
pub(crate) fn rounded(line: u64, number: u64) -> u64
    requires some { 0 < line }
    requires few { line ≤ 1024 }
    requires small { number ≤ 2 ^ 40 }
    ensures { result ≡ Rattle.placement.specs.Groups.rounded line number }
{
    (number + (line - 1)) / line * line
}

// No word in any of so many groups.
fn empty_groups(alloc: Global, count: usize) -> Result<Vec<u64>, NoMemory>
    ensures { IfOk result (λ sizes. sizes.items ≡ map (group_size []) (below count)) }
{
    zeros(alloc, count)
}

// So many zeros.
#[tactic(auto, using(line_tracks::specs::Laws::Words::map_below_same))]
fn zeros(alloc: Global, count: usize) -> Result<Vec<u64>, NoMemory>
    ensures { IfOk result (λ zeros. zeros.items ≡ map (λ i. 0) (below count)) }
{
    Ok(vec![in alloc; 0; count]?)
}

// One word more of a group.
#[inline(always)]
fn add_word(sizes: &mut Vec<u64>, group: usize)
    requires within { group < length sizes.old.items }
    requires few { (size : ℕ) → slice_get sizes.old.items group ≡ Some size → size < 2 ^ 60 }
    ensures { (size : ℕ) → slice_get sizes.old.items group ≡ Some size
        → sizes.new.items ≡ slice_set sizes.old.items group (size + 1) }
{
    sizes[group] += 1;
}

/// How many words each group has.
pub(crate) fn group_sizes(alloc: Global, owners: &[Owner]) -> Result<Vec<u64>, NoMemory>
    requires { length owners.now ≤ 2 ^ 23 }
    ensures { IfOk result (λ sizes. sizes.items ≡ map (group_size owners.now) (below group_count)) }
{
    let mut sizes = empty_groups(alloc, group_total())?;
    for owner in owners {
        add_word(&mut sizes, group_of(*owner));
    }
    Ok(sizes)
}

/// How many bytes a group of so many words takes.
pub(crate) fn room_of(line: u64, size: u64) -> u64
    requires some { 0 < line }
    requires few { line ≤ 1024 }
    requires small { size ≤ 2 ^ 23 }
    ensures { result ≡ Rattle.placement.specs.Groups.rounded line (4 * size) }
{
    rounded(line, 4 * size)
}

/// Where each group begins in an area that begins at a number, and behind them where the area ends.
pub(crate) fn group_starts(
    alloc: Global,
    line: u64,
    start: u64,
    owners: &[Owner],
    sizes: &[u64],
) -> Result<Vec<u64>, NoMemory>
    requires some { 0 < line }
    requires few { line ≤ 1024 }
    requires early { start ≤ 2 ^ 33 }
    requires short { length owners.now ≤ 2 ^ 23 }
    requires sizes { sizes.now ≡ map (group_size owners.now) (below group_count) }
    ensures { IfOk result (λ starts. starts.items
        ≡ map (λ g. start + group_start line owners.now g) (below (suc group_count))) }
{
    let mut starts = Vec::new(alloc);
    let mut at = start;
    starts.push(at)?;
    for group in 0..sizes.len() {
        at += room_of(line, sizes[group]);
        starts.push(at)?;
    }
    Ok(starts)
}
