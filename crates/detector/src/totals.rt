// The tracks, counted.
ghost use Rattle.std.specs.Prelude.{◌≡◌, ◌+◌, ◌-◌, ◌<◌, ◌≤◌, ◌^◌, map};
ghost use Rattle.std.specs.List.Sorted.{IsPermutation};
ghost use Rattle.base.specs.Levels.{Levels};
ghost use Rattle.base.specs.Lines.{Grid};
ghost use Rattle.sharing_rules.specs.AccessLists.{AccessList};
ghost use Rattle.sharing_rules.specs.Opened.{opened};
ghost use Rattle.line_tracks.specs.KeptIn.{kept_in};
ghost use Rattle.detector.specs.TotalsCounted.{one, observed_count, one_if_listed, totals_in, weight};
ghost use Rattle.detector.specs.TotalsOf.{totals_of};

use line_tracks::Track;
use sharing_rules::LineKind;

/// What tracked lines come to.
#[derive(Clone, Copy, PartialEq, Eq, Debug)]
pub struct Totals {
    /// How many lines are tracked, of all kinds.
    pub tracked: u64,
    /// How many of them are listed.
    pub listed: u64,
    /// How many invalidations the observed ones counted, together. It has so many bits that no
    /// sum of counts is too great for it.
    pub invalidations: u128,
}

// What a track adds to the listed lines.
fn listed_by(track: &Track, report: u64) -> u64
    ensures value { result ≡ one_if_listed report track.now.kind track.now.count }
    ensures small { result ≤ 1 }
{
    if report <= track.count() { 1 } else { 0 }
}

// What a track adds to the invalidations.
fn invalidations_of(track: &Track) -> u64
    ensures { result ≡ observed_count track.now.kind track.now.count }
{
    match track.kind() {
        LineKind::Observed => track.count(),
        LineKind::Shifted | LineKind::Doubled => 0,
    }
}

// One track more: it counts where it has a start.
fn add_track(totals: Totals, track: &Track, report: u64) -> Totals
    requires tracked { totals.tracked < 2 ^ 64 - 1 }
    requires listed { totals.listed < 2 ^ 64 - 1 }
    requires invalidations { totals.invalidations < 2 ^ 128 - 2 ^ 64 }
    ensures tracked { result.tracked ≡ totals.tracked + weight one track.now }
    ensures listed { result.listed ≡ totals.listed + weight (one_if_listed report) track.now }
    ensures invalidations { result.invalidations
        ≡ totals.invalidations + weight observed_count track.now }
    ensures one_more { result.tracked ≤ totals.tracked + 1 }
    ensures one_listed_more { result.listed ≤ totals.listed + 1 }
    ensures bounded { result.invalidations < totals.invalidations + 2 ^ 64 }
{
    if track.start().is_none() {
        return totals;
    }
    Totals {
        tracked: totals.tracked + 1,
        listed: totals.listed + listed_by(track, report),
        invalidations: totals.invalidations + u128::from(invalidations_of(track)),
    }
}

// What the tracks weigh together.
fn sum_tracks(tracks: &[Track], report: u64) -> Totals
    ensures { result ≡ totals_in report tracks.now }
{
    let mut totals = Totals {
        tracked: 0,
        listed: 0,
        invalidations: 0,
    };
    for track in tracks {
        totals = add_track(totals, track, report);
    }
    totals
}

/// What the tracks come to, where a line is listed with a count of at least `report`.
pub fn count_tracks(tracks: &[Track], report: u64) -> Totals
    ensures value { result ≡ totals_in report tracks.now }
    // where the tracks are those that a list keeps, in any order: what its lines come to
    ensures of_list { (g : Grid) (v : Levels) (t : AccessList) → v.report ≡ report
        → IsPermutation tracks.now (map (kept_in t) (opened g v t)) → result ≡ totals_of g v t }
{
    sum_tracks(tracks, report)
}
