// The listed tracks in their order.
ghost use Rattle.std.specs.Prelude.{◌≡◌, ◌++◌, filter};
ghost use Rattle.std.specs.Prelude.{filter_map, map, option_to_list, IfOk, OnOk};
ghost use Rattle.std.specs.Ordering.{is_lt};
ghost use Rattle.report.specs.Shown.{is_shown_before, listed_tracks, reaches, shown_of};
ghost use Rattle.report.specs.ListedTracks.{track_shown};

use base::NoMemory;
use line_tracks::{Track, order_by_kind};
use std::alloc::Global;
use std::cmp::Ordering;

/// A track that has a start.
#[derive(Clone, Copy)]
pub struct ListedTrack<'a> {
    /// Its start.
    pub start: u64,
    /// The track.
    pub track: &'a Track,
}

// By count falling, then by kind, then by base rising.
fn order(one: &ListedTrack<'_>, other: &ListedTrack<'_>) -> Ordering
    ensures { is_lt result ≡ is_shown_before (track_shown one.now) (track_shown other.now) }
{
    match other.track.count().cmp(&one.track.count()) {
        Ordering::Equal => order_by_kind(one.track, other.track),
        by_count => by_count,
    }
}

// Puts a track behind the others, if it has a start and its count is at least `report`.
fn push_listed<'a>(
    rows: &mut Vec<ListedTrack<'a>>,
    track: &'a Track,
    report: u64,
) -> Result<(), NoMemory>
    ensures { OnOk result (map track_shown rows.new.items
        ≡ map track_shown rows.old.items
        ++ filter (reaches report) (option_to_list (shown_of track.now))) }
{
    if let Some(start) = track.start() {
        if report <= track.count() {
            rows.push(ListedTrack { start, track })?;
        }
    }
    Ok(())
}

// The tracks with a start whose count is at least `report`, as they stand.
fn reported<'a>(
    alloc: Global,
    tracks: &'a [Track],
    report: u64,
) -> Result<Vec<ListedTrack<'a>>, NoMemory>
    ensures { IfOk result (λ rows. map track_shown rows.items
        ≡ filter (reaches report) (filter_map shown_of tracks.now)) }
{
    let mut rows = Vec::new(alloc);
    for track in tracks {
        push_listed(&mut rows, track, report)?;
    }
    Ok(rows)
}

/// The listed tracks: those with a start whose count is at least `report`, by count falling, then
/// by kind, then by base rising; those that tie in all three stay as they stand.
///
/// NoMemory comes where there is no memory for the result, or for the sort.
pub fn listed<'a>(
    alloc: Global,
    tracks: &'a [Track],
    report: u64,
) -> Result<Vec<ListedTrack<'a>>, NoMemory>
    ensures { IfOk result (λ rows. map track_shown rows.items ≡ listed_tracks report tracks.now) }
{
    let mut rows = reported(alloc, tracks, report)?;
    rows.sort_by(order)?;
    Ok(rows)
}
