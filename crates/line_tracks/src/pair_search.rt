// The search: all pairs of words of two lines, one step each.
ghost use Rattle.std.specs.Prelude.{◌≡◌, ℕ, ◌+◌, ◌*◌, ◌/◌, ◌<◌, ◌≤◌, ◌^◌, pos, ◌+ℤ◌, ◌≤ℤ◌, List};
ghost use Rattle.std.specs.Prelude.{[], ◌++◌, filter, length, option_map, Some, None, IsNone, ◌↔◌};
ghost use Rattle.std.specs.Prelude.{IsFalse};
ghost use Rattle.sharing_rules.specs.Pairs.{best_pair_of, hot_pairs, all_pairs, is_hot_at};
ghost use Rattle.sharing_rules.specs.Pairs.{score};
ghost use Rattle.sharing_rules.specs.Search.{is_in, keep, row_pairs};
ghost use Rattle.sharing_rules.specs.Search as search_of;
ghost use Rattle.sharing_rules.specs.AccessLists.{AccessList};
ghost use Rattle.sharing_rules.specs.Predicted.{best_between};
ghost use Rattle.line_tracks.specs.Neighbours.{AreNeighbours, AreObservedWords, reach, pair_at};
ghost use Rattle.line_tracks.specs.Neighbours.{pair_of, word_at};
ghost use Rattle.line_tracks.specs.HotRows.{AreRows, best_of};
ghost use Rattle.line_tracks.specs.RangeWords.{is_hot_place};

use crate::Shadow;
use crate::pair::Pair;
use base::{Range, Steps};
use sharing_rules::Owner;
use std::sync::ledger::Ledger;

/// The hot pair of the greatest score of two neighbouring lines of 32, 64, 128 or 256 bytes: both
/// words are hot, one was written, and not both belong to one single hart. Ties go to the lower
/// `x`, then the lower `y`.
///
/// `within`, where given, is the greatest distance in bytes from the beginning of the lower word to
/// the end of the upper one. None exactly where there is no such pair. One step for each pair of
/// words, hot or not.
pub fn best_pair<L: Ledger>(
    lower: &Shadow,
    upper: &Shadow,
    within: Option<u32>,
    steps: &mut Steps<L>,
) -> Option<Pair>
    requires { AreNeighbours lower.now.range upper.now.range }
    ensures value { result ≡ option_map (pair_at lower.now.range upper.now.range)
        (best_pair_of lower.now.words upper.now.words (reach lower.now.range.size within)) }
    ensures none { IsNone result
        ↔ (hot_pairs lower.now.words upper.now.words (reach lower.now.range.size within) ≡ []) }
    // with no distance given every hot pair is near enough
    ensures any { within ≡ None → hot_pairs lower.now.words upper.now.words
        (reach lower.now.range.size within)
        ≡ filter (is_hot_at lower.now.words upper.now.words)
        (all_pairs (length lower.now.words) (length upper.now.words)) }
    // where they are the words of two observed lines of a list, it is the best pair of the list's
    // definition
    ensures observed { (T k : ℕ) (t : AccessList)
        → AreObservedWords lower.now.range.size T k t lower.now upper.now
        → result ≡ option_map (pair_of lower.now.range.size k)
        (best_between lower.now.range.size T (reach lower.now.range.size within) k t) }
    ensures cost { steps.new ≡ steps.old + lower.now.range.size / 4 * (lower.now.range.size / 4) }
{
    let (lower_range, upper_range) = (lower.range(), upper.range());
    let lines = Neighbours {
        lower,
        upper,
        count: lower_range.size / 4,
        within: reach_of(lower_range.size, within),
    };
    match best_places(&lines, steps) {
        Some((i, j)) => Some(Pair {
            x: word_address(lower_range, i),
            y: word_address(upper_range, j),
        }),
        None => None,
    }
}

// Two neighbouring lines, how many words each has, and within how many bytes a pair is sought.
#[derive(Clone, Copy, Drop)]
struct Neighbours<'a> {
    lower: &'a Shadow,
    upper: &'a Shadow,
    count: u32,
    within: u64,
}

// How many bytes a pair may take.
fn reach_of(size: u32, within: Option<u32>) -> u64
    requires { size ≤ 256 }
    ensures value { result ≡ reach size within }
    ensures small { result < 2 ^ 32 }
{
    match within {
        Some(within) => u64::from(within),
        None => 2 * u64::from(size),
    }
}

// The address of word i of a range.
fn word_address(range: Range, i: u32) -> u32
    requires begins { pos 0 ≤ℤ range.base }
    requires ends { (range.base +ℤ pos (4 * i + 4)) ≤ℤ pos (2 ^ 32) }
    ensures { result ≡ word_at range i }
{
    range.base as u32 + 4 * i
}

// The best pair by the places of its words.
fn best_places<L: Ledger>(lines: &Neighbours, steps: &mut Steps<L>) -> Option<(u32, u32)>
    requires { AreRows lines.now.lower.now lines.now.upper.now lines.now.count lines.now.within }
    ensures best { result ≡ best_pair_of lines.now.lower.now.words lines.now.upper.now.words
        lines.now.within }
    ensures is_in { is_in lines.now.lower.now.words lines.now.upper.now.words result }
    ensures cost { steps.new ≡ steps.old + lines.now.count * lines.now.count }
{
    let mut best = None;
    for i in 0..lines.count {
        best = best_in_row(lines, best, i, steps);
    }
    best
}

// The best pair after those of word i.
fn best_in_row<L: Ledger>(
    lines: &Neighbours,
    best: Option<(u32, u32)>,
    i: u32,
    steps: &mut Steps<L>,
) -> Option<(u32, u32)>
    requires lines { AreRows lines.now.lower.now lines.now.upper.now lines.now.count
        lines.now.within }
    requires best { is_in lines.now.lower.now.words lines.now.upper.now.words best }
    requires i { i < lines.now.count }
    ensures is_in { is_in lines.now.lower.now.words lines.now.upper.now.words result }
    ensures best { (ps : List (ℕ × ℕ)) → best ≡ best_of lines.now.lower.now.words
        lines.now.upper.now.words lines.now.within ps
        → result ≡ best_of lines.now.lower.now.words lines.now.upper.now.words lines.now.within
        (ps ++ row_pairs i lines.now.count) }
    ensures cost { steps.new ≡ steps.old + lines.now.count }
{
    // Of most lines only some words are hot.
    if !lines.lower.is_hot(i) {
        return pass_by(lines, best, i, steps);
    }
    let mut best = best;
    for j in 0..lines.count {
        steps.tick();
        if is_passing(lines, i, j) {
            best = Some(better(lines, best, i, j));
        }
    }
    best
}

// The same where word i isn't hot: no pair with it is, and nothing is looked at.
fn pass_by<L: Ledger>(
    lines: &Neighbours,
    best: Option<(u32, u32)>,
    i: u32,
    steps: &mut Steps<L>,
) -> Option<(u32, u32)>
    requires cold { IsFalse (is_hot_place lines.now.lower.now.words i) }
    ensures same { result ≡ best }
    ensures best { (ps : List (ℕ × ℕ)) → best ≡ best_of lines.now.lower.now.words
        lines.now.upper.now.words lines.now.within ps
        → result ≡ best_of lines.now.lower.now.words lines.now.upper.now.words lines.now.within
        (ps ++ row_pairs i lines.now.count) }
    ensures cost { steps.new ≡ steps.old + lines.now.count }
{
    for _j in 0..lines.count {
        steps.tick();
    }
    best
}

// Whether words i and j are a hot pair that is near enough.
fn is_passing(lines: &Neighbours, i: u32, j: u32) -> bool
    requires lines { AreRows lines.now.lower.now lines.now.upper.now lines.now.count
        lines.now.within }
    requires i { i < lines.now.count }
    requires j { j < lines.now.count }
    ensures { result ≡ search_of.is_passing lines.now.lower.now.words lines.now.upper.now.words
        lines.now.within (i, j) }
{
    let x = lines.lower.word(i);
    let y = lines.upper.word(j);
    lines.lower.is_hot(i)
        && lines.upper.is_hot(j)
        && (0 < x.writes || 0 < y.writes)
        && !is_same_hart(&x.owner, &y.owner)
        && u64::from(4 * (lines.count + j) + 4) <= lines.within + 4 * u64::from(i)
}

// Whether both have one and the same single hart.
fn is_same_hart(x: &Owner, y: &Owner) -> bool
    ensures { result ≡ Rattle.sharing_rules.specs.Pairs.is_same_hart x.now y.now }
{
    match (x, y) {
        (Owner::One(g), Owner::One(h)) => g.number() == h.number(),
        _ => false,
    }
}

// The better of the best pair so far and a later one.
fn better(lines: &Neighbours, best: Option<(u32, u32)>, i: u32, j: u32) -> (u32, u32)
    requires lines { AreRows lines.now.lower.now lines.now.upper.now lines.now.count
        lines.now.within }
    requires best { is_in lines.now.lower.now.words lines.now.upper.now.words best }
    requires i { i < lines.now.count }
    requires j { j < lines.now.count }
    ensures keeps { Some result ≡ keep (score lines.now.lower.now.words lines.now.upper.now.words)
        best (i, j) }
    ensures is_in { is_in lines.now.lower.now.words lines.now.upper.now.words (Some result) }
{
    match best {
        None => (i, j),
        Some((x, y)) => {
            if score_at(lines, x, y) < score_at(lines, i, j) {
                (i, j)
            } else {
                (x, y)
            }
        }
    }
}

// The lesser number of accesses of words i and j.
fn score_at(lines: &Neighbours, i: u32, j: u32) -> u64
    requires lines { AreRows lines.now.lower.now lines.now.upper.now lines.now.count
        lines.now.within }
    requires i { i < lines.now.count }
    requires j { j < lines.now.count }
    ensures { result ≡ score lines.now.lower.now.words lines.now.upper.now.words (i, j) }
{
    let x = lines.lower.word(i);
    let y = lines.upper.word(j);
    x.accesses().min(y.accesses())
}
