// The tracks in their order.
ghost use Rattle.std.specs.Prelude.{◌≡◌, map, IfOk};
ghost use Rattle.std.specs.Ordering.{is_lt};
ghost use Rattle.sharing_rules.specs.Listed.{in_order as in_order_of};
ghost use Rattle.line_tracks.specs.Placed.{AreApart, is_placed_before};
ghost use Rattle.saved_state.specs.WrittenParts.{track_of};

use base::NoMemory;
use line_tracks::{Track, order_by_kind};
use std::alloc::Global;
use std::cmp::Ordering;

/// A track at its place in the order.
#[derive(Clone, Copy)]
pub struct TrackRef<'a> {
    /// The track.
    pub track: &'a Track,
}

// By kind, then by base rising.
fn order(one: &TrackRef<'_>, other: &TrackRef<'_>) -> Ordering
    ensures { is_lt result ≡ is_placed_before (track_of one.now) (track_of other.now) }
{
    order_by_kind(one.track, other.track)
}

// The tracks as they stand.
fn refs_of<'a>(alloc: Global, tracks: &'a [Track]) -> Result<Vec<TrackRef<'a>>, NoMemory>
    ensures { IfOk result (λ refs. map track_of refs.items ≡ tracks.now) }
{
    let mut refs = Vec::new(alloc);
    for track in tracks {
        refs.push(TrackRef { track })?;
    }
    Ok(refs)
}

/// The tracks by kind, then by base rising. No two have one kind and one base.
///
/// NoMemory comes where there is no memory for 8 bytes a track, or for their sort.
pub fn in_order<'a>(alloc: Global, tracks: &'a [Track]) -> Result<Vec<TrackRef<'a>>, NoMemory>
    requires { AreApart tracks.now }
    ensures { IfOk result (λ refs. map track_of refs.items
        ≡ in_order_of is_placed_before tracks.now) }
{
    let mut refs = refs_of(alloc, tracks)?;
    refs.sort_by(order)?;
    Ok(refs)
}
