// What a state is written of, and what is read of one.
use base::{Layout, Range, Thresholds};
use line_tracks::{History, LineKind, Shadow, Track};

/// A line of a layout that was written.
#[derive(Clone, Copy, PartialEq, Eq, Debug)]
pub struct CountedLine {
    /// Its number, at most 2^30.
    pub number: u64,
    /// How often it was written, at least once.
    pub writes: u64,
}

/// What is known of the accesses so far, to be saved.
#[derive(Clone, Copy)]
pub struct StateParts<'a> {
    /// The layout of the observed lines.
    pub layout: Layout,
    /// The thresholds. That of the report isn't saved.
    pub thresholds: Thresholds,
    /// How many harts there are.
    pub harts: u16,
    /// How many accesses there were.
    pub position: u64,
    /// Every line that was written, in order of their numbers.
    pub lines: &'a [CountedLine],
    /// Every track, in any order.
    pub tracks: &'a [Track],
}

/// What is stated before the lines and the tracks of a state.
#[derive(Clone, Copy)]
pub struct StateHeader {
    /// The layout of the observed lines.
    pub layout: Layout,
    /// The thresholds. That of the report isn't saved.
    pub thresholds: Thresholds,
    /// How many harts there are.
    pub harts: u16,
    /// How many accesses there were.
    pub position: u64,
    /// How many written lines follow.
    pub lines: u64,
    /// How many tracks follow the lines.
    pub tracks: u64,
}

/// A track as its bytes say it.
#[derive(Drop)]
pub struct SavedTrack {
    /// How it came to be tracked.
    pub kind: LineKind,
    /// Its range, and what was counted of its words.
    pub shadow: Shadow,
    /// The position of the write that started it, and the first two harts since its last write.
    /// None before its start.
    pub start: Option<(u64, History)>,
    /// How many writes after its start found another hart holding it.
    pub count: u64,
}

/// What a track states before its words.
#[derive(Clone, Copy)]
pub struct TrackHead {
    /// How it came to be tracked.
    pub kind: LineKind,
    /// Its range.
    pub range: Range,
    /// The position of the write that started it, and the first two harts since its last write.
    /// None before its start.
    pub start: Option<(u64, History)>,
    /// How many writes after its start found another hart holding it.
    pub count: u64,
}
