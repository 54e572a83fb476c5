// The predicted lines that open at a write.
ghost use Rattle.std.specs.Prelude.{◌≡◌, ℕ, ◌+◌, ◌*◌, ◌/◌, ◌%◌, ◌≤◌, None, Some, MatchOption};
ghost use Rattle.base.specs.declared.layout.Range.{Range as Span};
ghost use Rattle.sharing_rules.specs.Opened.{even_lower};
ghost use Rattle.sharing_rules.specs.declared.line_kind.LineKind.TheVariants.{Shifted, Doubled};
ghost use Rattle.line_tracks.specs.Neighbours.{reach};
ghost use Rattle.detector.specs.Index.{IsShaped};
ghost use Rattle.detector.specs.Openings.{best_of_two, doubled_opens};
ghost use Rattle.detector.specs.Openings as open_of;
ghost use Rattle.detector.specs.Pairs.{AreAround, ArePair, AreShaped, IsPairOf, doubled_between};
ghost use Rattle.detector.specs.Pairs.{kept_at, shifted_between};
ghost use Rattle.sharing_rules.specs.Lines.{native_grid};

use crate::{LineEntry, TrackNumber};
use base::{Range, Steps};
use line_tracks::{Pair, Tracks, best_pair, doubled_range, shifted_range};
use std::sync::ledger::Ledger;

/// The ranges of the predicted lines that open for a line: the shifted ones of its pairs with the
/// line below and with the line above, and the doubled one of its even pair.
#[derive(Clone, Copy, Drop)]
pub struct Openings {
    pub below: Option<Range>,
    pub here: Option<Range>,
    pub doubled: Option<Range>,
}

/// Where nothing opens.
pub const NOTHING: Openings = Openings {
    below: None,
    here: None,
    doubled: None,
};

/// The entries of a line and of its two neighbours.
#[derive(Clone, Copy, Drop)]
pub struct Around {
    pub below: LineEntry,
    pub here: LineEntry,
    pub above: LineEntry,
}

// The best hot pair of two neighbouring lines, by the places of their tracks: none where one has no
// track.
fn pair_between<L: Ledger>(
    tracks: &Tracks,
    lower: TrackNumber,
    upper: TrackNumber,
    within: Option<u32>,
    steps: &mut Steps<L>,
) -> Option<Pair>
    requires { (n : ℕ) × (k : ℕ) × ArePair n k tracks.now lower upper }
    ensures found { (n k : ℕ) → ArePair n k tracks.now lower upper → MatchOption result
        (best_of_two (kept_at tracks.now lower) (kept_at tracks.now upper) (reach n within) ≡ None)
        (IsPairOf n k tracks.now lower upper (reach n within)) }
    ensures cost { (n k : ℕ) → ArePair n k tracks.now lower upper
        → steps.new ≤ steps.old + n / 4 * (n / 4) }
{
    let lower = &tracks.all()[lower.number()? as usize];
    let upper = &tracks.all()[upper.number()? as usize];
    // A shadow has a word for each 4 bytes, as its range says.
    let _ranges = (lower.shadow().range(), upper.shadow().range());
    best_pair(lower.shadow(), upper.shadow(), within, steps)
}

// The range of the shifted line that opens for two lines of a size: none where they have one
// already.
fn shifted_opening<L: Ledger>(
    tracks: &Tracks,
    lower: &LineEntry,
    upper: &LineEntry,
    size: u32,
    steps: &mut Steps<L>,
) -> Option<Range>
    requires { (k : ℕ) × ArePair size k tracks.now lower.now.track upper.now.track }
    ensures value { (k : ℕ) → ArePair size k tracks.now lower.now.track upper.now.track
        → result ≡ shifted_between size k tracks.now lower.now upper.now }
    ensures shaped { (k : ℕ) → ArePair size k tracks.now lower.now.track upper.now.track
        → (r : Span) → result ≡ Some r → IsShaped (native_grid size) k Shifted r }
    ensures cost { steps.new ≤ steps.old + size / 4 * (size / 4) }
{
    if lower.shifted.is_some() {
        return None;
    }
    let pair = pair_between(tracks, lower.track, upper.track, Some(size), steps)?;
    shifted_range(pair.x, pair.y, size)
}

// The range of the doubled line that opens for an even pair of lines of a size: none where it has
// one already.
fn doubled_opening<L: Ledger>(
    tracks: &Tracks,
    lower: &LineEntry,
    upper: &LineEntry,
    size: u32,
    steps: &mut Steps<L>,
) -> Option<Range>
    requires { (k : ℕ) × (k % 2 ≡ 1) × ArePair size k tracks.now lower.now.track upper.now.track }
    ensures value { (k : ℕ) → k % 2 ≡ 1 → ArePair size k tracks.now lower.now.track upper.now.track
        → result ≡ doubled_between size k tracks.now lower.now upper.now }
    ensures shaped { (k : ℕ) → k % 2 ≡ 1 → ArePair size k tracks.now lower.now.track upper.now.track
        → (r : Span) → result ≡ Some r → IsShaped (native_grid size) k Doubled r }
    ensures cost { steps.new ≤ steps.old + size / 4 * (size / 4) }
{
    if lower.doubled.is_some() {
        return None;
    }
    let pair = pair_between(tracks, lower.track, upper.track, None, steps)?;
    Some(doubled_range(pair.x, size))
}

// The doubled line that opens for the even pair of a line of a size.
fn even_opening<L: Ledger>(
    tracks: &Tracks,
    line: u64,
    around: &Around,
    size: u32,
    steps: &mut Steps<L>,
) -> Option<Range>
    requires { AreAround (native_grid size) line tracks.now around.now }
    ensures value { result ≡ doubled_opens (native_grid size) (even_lower line) tracks.now }
    ensures shaped { (r : Span) → result ≡ Some r
        → IsShaped (native_grid size) (even_lower line) Doubled r }
    ensures cost { steps.new ≤ steps.old + size / 4 * (size / 4) }
{
    if line % 2 == 1 {
        doubled_opening(tracks, &around.here, &around.above, size, steps)
    } else {
        doubled_opening(tracks, &around.below, &around.here, size, steps)
    }
}

/// Searches the pairs of a line of a size.
pub fn search<L: Ledger>(
    tracks: &Tracks,
    line: u64,
    around: &Around,
    size: u32,
    steps: &mut Steps<L>,
) -> Openings
    requires { AreAround (native_grid size) line tracks.now around.now }
    ensures value { result ≡ open_of.openings (native_grid size) line tracks.now }
    ensures shaped { AreShaped size line result }
    ensures cost { steps.new ≤ steps.old + 3 * (size / 4 * (size / 4)) }
{
    let below = shifted_opening(tracks, &around.below, &around.here, size, steps);
    let here = shifted_opening(tracks, &around.here, &around.above, size, steps);
    let doubled = even_opening(tracks, line, around, size, steps);
    Openings {
        below,
        here,
        doubled,
    }
}
