// What a report is written of.
use base::{Ending, Layout, Thresholds};
use line_tracks::Track;
use objects::ObjectTable;

/// What a run or a trace has shown.
#[derive(Clone, Copy)]
pub struct Findings<'a> {
    /// How it ended. Its accesses are the position at the end.
    pub ending: Ending,
    /// The layout of the observed lines.
    pub layout: Layout,
    /// The thresholds.
    pub thresholds: Thresholds,
    /// Every track, in any order.
    pub tracks: &'a [Track],
    /// What stands in memory.
    pub objects: &'a ObjectTable,
}
