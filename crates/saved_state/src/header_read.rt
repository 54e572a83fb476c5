// The header that begins a state.
ghost use Rattle.std.specs.Prelude.{◌≡◌, ◌≤◌, ◌^◌, Some, None, IsTrue, IfSome};
ghost use Rattle.std.specs.Prelude.{if◌then◌else◌, length, option_map};
ghost use Rattle.std.specs.Option.{SomeIff};
ghost use Rattle.base.specs.Levels.{is_from_to};
ghost use Rattle.sharing_rules.specs.Listed.{may_predict};
ghost use Rattle.saved_state.specs.Parts.{are_native_levels, header_meant};
ghost use Rattle.saved_state.specs.Units.{header_at, header_in, is_good_header};

use crate::fields::some_unless;
use crate::header_places::{
    HARTS_PLACE, HEADER_LENGTH, LINES_PLACE, OFFSET_PLACE, POSITION_PLACE, PREDICTION_PLACE,
    SIZE_PLACE, TRACKING_PLACE, TRACKS_PLACE,
};
use crate::state_parts::StateHeader;
use crate::state_write::header_bytes;
use base::{Layout, Thresholds, u16_at, u32_at, u64_at};
use sharing_rules::is_native;

// Thresholds under a layout: None exactly where they are none, or something is predicted under a
// layout that isn't native.
fn thresholds_of(
    layout: Layout,
    tracking: u64,
    prediction: Option<u64>,
    report: u64,
) -> Option<Thresholds>
    requires { IsTrue (is_from_to 1 (2 ^ 40) report) }
    ensures value { SomeIff result (IsTrue (are_native_levels layout tracking prediction))
        (record { tracking = tracking; prediction = prediction; report = report }) }
    ensures native { IfSome result (λ t. IsTrue (may_predict layout t)) }
{
    match Thresholds::new(tracking, prediction, report) {
        Some(thresholds) if prediction.is_none() || is_native(layout) => Some(thresholds),
        _ => None,
    }
}

// What the fields of a header say: None exactly where it breaks the rule.
fn header_at(bytes: &[u8], report: u64) -> Option<StateHeader>
    requires long { 64 ≤ length bytes.now }
    requires report { IsTrue (is_from_to 1 (2 ^ 40) report) }
    ensures value { option_map header_meant result ≡ (if is_good_header (header_at bytes.now)
        then Some (header_at bytes.now) else None) }
    ensures levels { IfSome result (λ h. h.thresholds.report ≡ report) }
    ensures native { IfSome result (λ h. IsTrue (may_predict h.layout h.thresholds)) }
    ensures bounds { IfSome result (λ h. (1 ≤ h.harts) × (h.harts ≤ 256)
        × (h.position ≤ 2 ^ 40)) }
{
    let size = u32_at(bytes, SIZE_PLACE as usize);
    let Some(layout) = Layout::new(size, u32_at(bytes, OFFSET_PLACE as usize)) else {
        return None;
    };
    let tracking = u64_at(bytes, TRACKING_PLACE as usize);
    let prediction = some_unless(0, u64_at(bytes, PREDICTION_PLACE as usize));
    let Some(thresholds) = thresholds_of(layout, tracking, prediction, report) else {
        return None;
    };
    let harts = u16_at(bytes, HARTS_PLACE as usize);
    let position = u64_at(bytes, POSITION_PLACE);
    if harts < 1 || harts > 256 || position > 1 << 40 {
        return None;
    }
    Some(StateHeader {
        layout,
        thresholds,
        harts,
        position,
        lines: u64_at(bytes, LINES_PLACE),
        tracks: u64_at(bytes, TRACKS_PLACE),
    })
}

/// The header that begins some bytes, with a report threshold from 1 to 2^40 beside it: None
/// exactly where it is at fault.
pub fn read_header(bytes: &[u8], report: u64) -> Option<StateHeader>
    requires { IsTrue (is_from_to 1 (2 ^ 40) report) }
    ensures value { option_map header_meant result ≡ header_in bytes.now }
    ensures levels { IfSome result (λ h. h.thresholds.report ≡ report) }
    ensures native { IfSome result (λ h. IsTrue (may_predict h.layout h.thresholds)) }
    ensures bounds { IfSome result (λ h. (1 ≤ h.harts) × (h.harts ≤ 256)
        × (h.position ≤ 2 ^ 40)) }
    ensures long { IfSome result (λ h. 64 ≤ length bytes.now) }
{
    if bytes.len() < HEADER_LENGTH {
        return None;
    }
    let Some(header) = header_at(bytes, report) else {
        return None;
    };
    if bytes.starts_with(&header_bytes(&header)) {
        Some(header)
    } else {
        None
    }
}
