// The order of tracks.
ghost use Rattle.std.specs.Prelude.{◌≡◌};
ghost use Rattle.std.specs.Ordering.{is_lt};
ghost use Rattle.sharing_rules.specs.Listed.{rank as rank_of};
ghost use Rattle.line_tracks.specs.Placed.{is_placed_before};

use crate::track::Track;
use sharing_rules::LineKind;
use std::cmp::Ordering;

/// The place of a kind in the order: 0 of the observed lines, 1 of the shifted ones, 2 of the
/// doubled ones.
pub fn rank(kind: LineKind) -> u8
    ensures { result ≡ rank_of kind }
{
    match kind {
        LineKind::Observed => 0,
        LineKind::Shifted => 1,
        LineKind::Doubled => 2,
    }
}

/// By kind, then by base rising.
pub fn order_by_kind(one: &Track, other: &Track) -> Ordering
    ensures { is_lt result ≡ is_placed_before one.now other.now }
{
    match rank(one.kind()).cmp(&rank(other.kind())) {
        Ordering::Equal => one.range().base.cmp(&other.range().base),
        by_kind => by_kind,
    }
}
