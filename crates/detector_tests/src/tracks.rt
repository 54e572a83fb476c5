// Worked lists with predicted lines, over both indexes.
ghost use Rattle.std.specs.Prelude.{◌≡◌};
ghost use Rattle.sharing_rules.specs.Listed as listed;
ghost use Rattle.detector.specs.Entries.{no_entries};

use crate::MapIndex;
use crate::stated::{StatedAccess, access_of};
use base::Kind::{Read, Write};
use base::{Kind, Layout, Thresholds};
use detector::{Detector, LineIndex, PagedIndex, see};
use line_tracks::LineKind::{Doubled, Observed, Shifted};
use line_tracks::{LineKind, Track};
use sharing_rules::is_native;
use std::alloc::Global;
use std::process::Abort;
use std::test::Fail;

// Whether something may be predicted under a layout.
fn may_predict(layout: Layout, thresholds: Thresholds) -> bool
    ensures { result ≡ listed.may_predict layout thresholds }
{
    match thresholds.prediction() {
        Some(_) => is_native(layout),
        None => true,
    }
}

// A track, given by its kind, its base, its size, its start and its count.
type Shown = (LineKind, i64, u32, Option<u64>, u64);

// What a list is about, the size of its lines, the prediction threshold, the list, and its tracks.
struct Row {
    name: &'static str,
    size: u32,
    prediction: u64,
    stated: &'static [StatedAccess],
    shown: &'static [Shown],
}

fn is_shown(track: &Track, shown: &Shown) -> bool {
    let (kind, base, size, start, count) = *shown;
    let range = track.range();
    track.kind() == kind
        && range.base == base
        && range.size == size
        && track.start() == start
        && track.count() == count
}

// Sees these accesses.
fn see_all<I: LineIndex>(
    rt: &impl Abort,
    detector: &mut Detector<I>,
    stated: &[StatedAccess],
) -> Result<(), Fail> {
    for one in stated {
        let access = access_of(one).ok_or("an access")?;
        assert!(rt; detector.position() < 1 << 40);
        see(detector, access)?;
    }
    Ok(())
}

// Whether these are the stated tracks, in order.
fn are_shown(tracks: &[Track], shown: &[Shown]) -> bool {
    for (track, one) in tracks.iter().zip(shown) {
        if !is_shown(track, one) {
            return false;
        }
    }
    tracks.len() == shown.len()
}

// After the accesses of a row its tracks are there.
fn shows_tracks<I: LineIndex>(
    rt: &impl Abort,
    detector: &mut Detector<I>,
    row: &Row,
) -> Result<(), Fail> {
    see_all(rt, detector, row.stated)?;
    assert!(rt; are_shown(detector.tracks(), row.shown), "{}", row.name);
    Ok(())
}

// The same over an index without entries.
fn shows_over<I: LineIndex + Drop>(
    rt: &impl Abort,
    alloc: Global,
    index: I,
    layout: Layout,
    thresholds: Thresholds,
    row: &Row,
) -> Result<(), Fail>
    requires { I.entries index ≡ no_entries }
{
    assert!(rt; may_predict(layout, thresholds));
    let mut detector = Detector::new(alloc, index, layout, thresholds);
    shows_tracks(rt, &mut detector, row)
}

// The same over both indexes.
fn shows_row(rt: &impl Abort, alloc: Global, row: &Row) -> Result<(), Fail> {
    let layout = Layout::new(row.size, 0).ok_or("a layout")?;
    let thresholds = Thresholds::new(1, Some(row.prediction), 1).ok_or("thresholds")?;
    shows_over(rt, alloc, MapIndex::new(alloc), layout, thresholds, row)?;
    shows_over(rt, alloc, PagedIndex::new(alloc), layout, thresholds, row)
}

const ACROSS: [StatedAccess; 6] = [
    (0, 0x103c, Write),
    (1, 0x1040, Write),
    (0, 0x103c, Write),
    (1, 0x1040, Write),
    (0, 0x103c, Write),
    (1, 0x1040, Write),
];

const ROWS: [Row; 10] = [
    Row {
        name: "neighbouring words open a shifted and a doubled line",
        size: 64,
        prediction: 2,
        stated: &ACROSS,
        shown: &[
            (Observed, 0x1000, 64, Some(0), 0),
            (Observed, 0x1040, 64, Some(1), 0),
            (Shifted, 0x1020, 64, Some(3), 2),
            (Doubled, 0x1000, 128, Some(3), 2),
        ],
    },
    Row {
        name: "an opening at the third write starts later",
        size: 64,
        prediction: 3,
        stated: &ACROSS,
        shown: &[
            (Observed, 0x1000, 64, Some(0), 0),
            (Observed, 0x1040, 64, Some(1), 0),
            (Shifted, 0x1020, 64, Some(5), 0),
            (Doubled, 0x1000, 128, Some(5), 0),
        ],
    },
    Row {
        name: "an opened line waits for its next write",
        size: 64,
        prediction: 2,
        stated: &[
            (0, 0x103c, Write),
            (1, 0x1040, Write),
            (0, 0x103c, Write),
            (1, 0x1040, Read),
        ],
        shown: &[
            (Observed, 0x1000, 64, Some(0), 0),
            (Observed, 0x1040, 64, Some(1), 0),
            (Shifted, 0x1020, 64, None, 0),
            (Doubled, 0x1000, 128, None, 0),
        ],
    },
    Row {
        name: "one hart alone opens nothing",
        size: 64,
        prediction: 2,
        stated: &[
            (0, 0x103c, Write),
            (0, 0x1040, Write),
            (0, 0x103c, Write),
            (0, 0x1040, Write),
        ],
        shown: &[
            (Observed, 0x1000, 64, Some(0), 0),
            (Observed, 0x1040, 64, Some(1), 0),
        ],
    },
    Row {
        name: "words too far apart open a doubled line alone",
        size: 64,
        prediction: 2,
        stated: &[
            (0, 0x1000, Write),
            (1, 0x1040, Write),
            (0, 0x1000, Write),
            (1, 0x1040, Write),
            (0, 0x1000, Write),
        ],
        shown: &[
            (Observed, 0x1000, 64, Some(0), 0),
            (Observed, 0x1040, 64, Some(1), 0),
            (Doubled, 0x1000, 128, Some(3), 1),
        ],
    },
    Row {
        name: "no even pair opens a shifted line alone",
        size: 64,
        prediction: 2,
        stated: &[
            (0, 0x107c, Write),
            (1, 0x1080, Write),
            (0, 0x107c, Write),
            (1, 0x1080, Write),
            (0, 0x107c, Write),
            (1, 0x1080, Write),
        ],
        shown: &[
            (Observed, 0x1040, 64, Some(0), 0),
            (Observed, 0x1080, 64, Some(1), 0),
            (Shifted, 0x1060, 64, Some(3), 2),
        ],
    },
    Row {
        name: "the last word of memory opens nothing",
        size: 64,
        prediction: 2,
        stated: &[(0, 0xffff_fffc, Write), (1, 0xffff_fffc, Write)],
        shown: &[(Observed, 0xffff_ffc0, 64, Some(0), 1)],
    },
    Row {
        name: "lines of 32 bytes",
        size: 32,
        prediction: 2,
        stated: &[
            (0, 0x101c, Write),
            (1, 0x1020, Write),
            (0, 0x101c, Write),
            (1, 0x1020, Write),
            (0, 0x101c, Write),
            (1, 0x1020, Write),
        ],
        shown: &[
            (Observed, 0x1000, 32, Some(0), 0),
            (Observed, 0x1020, 32, Some(1), 0),
            (Shifted, 0x1010, 32, Some(3), 2),
            (Doubled, 0x1000, 64, Some(3), 2),
        ],
    },
    Row {
        name: "words of one line open nothing",
        size: 64,
        prediction: 2,
        stated: &[
            (0, 0x101c, Write),
            (1, 0x1020, Write),
            (0, 0x101c, Write),
            (1, 0x1020, Write),
        ],
        shown: &[(Observed, 0x1000, 64, Some(0), 3)],
    },
    Row {
        name: "lines of 256 bytes",
        size: 256,
        prediction: 2,
        stated: &ACROSS,
        shown: &[(Observed, 0x1000, 256, Some(0), 5)],
    },
];

#[test]
fn lists_have_their_tracks(rt: HostRuntime) -> Result<(), Fail> {
    for row in &ROWS {
        shows_row(&rt, rt.alloc(), row)?;
    }
    Ok(())
}

// The entries of the first track, its count, and how often its first word was read.
fn first_track(detector: &Detector<PagedIndex>) -> Option<(u16, Option<u16>, u64, u64)> {
    let track = detector.tracks().first()?;
    let history = track.history()?;
    let shadow = track.shadow();
    if shadow.range().size / 4 == 0 {
        return None;
    }
    let second = match history.second() {
        Some(hart) => Some(hart.number()),
        None => None,
    };
    let reads = shadow.word(0).reads;
    Some((history.first().number(), second, track.count(), reads))
}

// A further access of the word at 0x1000, and what the track is then.
fn then(
    rt: &impl Abort,
    detector: &mut Detector<PagedIndex>,
    hart: u16,
    kind: Kind,
) -> Result<Option<(u16, Option<u16>, u64, u64)>, Fail> {
    see_all(rt, detector, &[(hart, 0x1000, kind)])?;
    Ok(first_track(detector))
}

// Each access of the word, and what the track is then.
const ENTRIES: [(u16, Kind, (u16, Option<u16>, u64, u64)); 5] = [
    (0, Write, (0, None, 0, 0)),
    (1, Read, (0, Some(1), 0, 1)),
    (2, Read, (0, Some(1), 0, 2)),
    (0, Write, (0, None, 1, 2)),
    (0, Read, (0, None, 1, 3)),
];

fn keeps_two_entries(rt: &impl Abort, detector: &mut Detector<PagedIndex>) -> Result<(), Fail> {
    for row in &ENTRIES {
        let (hart, kind, wanted) = *row;
        assert_eq!(rt; then(rt, detector, hart, kind)?, Some(wanted));
    }
    Ok(())
}

#[test]
fn two_entries_are_kept_since_the_last_write(rt: HostRuntime) -> Result<(), Fail> {
    let layout = Layout::new(64, 0).ok_or("a layout")?;
    let thresholds = Thresholds::new(1, None, 1).ok_or("thresholds")?;
    let index = PagedIndex::new(rt.alloc());
    let mut detector = Detector::new(rt.alloc(), index, layout, thresholds);
    keeps_two_entries(&rt, &mut detector)
}
