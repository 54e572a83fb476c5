// Where a header states what.

/// The size of a line.
pub const SIZE_PLACE: u64 = 8;

/// The offset of the lines.
pub const OFFSET_PLACE: u64 = 12;

/// The tracking threshold.
pub const TRACKING_PLACE: u64 = 16;

/// The prediction threshold, or 0.
pub const PREDICTION_PLACE: u64 = 24;

/// The number of harts.
pub const HARTS_PLACE: u64 = 32;

pub(crate) const POSITION_PLACE: usize = 40;

pub(crate) const LINES_PLACE: usize = 48;

pub(crate) const TRACKS_PLACE: usize = 56;

pub(crate) const HEADER_LENGTH: usize = 64;
