// The whole state.
ghost use Rattle.std.specs.Prelude.{◌≡◌, ◌+◌, ◌*◌, ◌^◌, ◌≤◌, ◌++◌, flat_map, length, map, sum_by};
ghost use Rattle.std.specs.Prelude.{IfOk, OnOk, unwrap_or};
ghost use Rattle.base.specs.Ranges.{line_range};
ghost use Rattle.line_tracks.specs.Placed.{AreApart};
ghost use Rattle.saved_state.specs.Counted.{AreInRange};
ghost use Rattle.saved_state.specs.Parts.{header_meant};
ghost use Rattle.saved_state.specs.Spelling.{header_of, spell_header, spell_line, spell_state};
ghost use Rattle.saved_state.specs.Spelling.{spell_track};
ghost use Rattle.saved_state.specs.WrittenParts.{state_of, track_of};

use crate::state_parts::{CountedLine, StateHeader, StateParts};
use crate::track_order::{TrackRef, in_order};
use crate::track_write::push_track;
use base::{Layout, NoMemory, Thresholds};
use std::alloc::Global;

// The prediction threshold as a number.
fn prediction_number(thresholds: Thresholds) -> u64
    ensures { result ≡ unwrap_or thresholds.prediction 0 }
{
    thresholds.prediction().unwrap_or(0)
}

// What is stated before the lines and the tracks.
fn header_of(state: &StateParts<'_>) -> StateHeader
    ensures { header_meant result ≡ header_of (state_of state.now) }
{
    StateHeader {
        layout: state.layout,
        thresholds: state.thresholds,
        harts: state.harts,
        position: state.position,
        lines: state.lines.len() as u64,
        tracks: state.tracks.len() as u64,
    }
}

#[tactic(auto, unfolding(crate::specs::Spelling::spell_header))]
pub(crate) fn header_bytes(header: &StateHeader) -> [u8; 64]
    ensures { result ≡ spell_header (header_meant header.now) }
{
    let [l0, l1, l2, l3] = header.layout.size().to_le_bytes();
    let [o0, o1, o2, o3] = header.layout.offset().to_le_bytes();
    let [t0, t1, t2, t3, t4, t5, t6, t7] = header.thresholds.tracking().to_le_bytes();
    let [p0, p1, p2, p3, p4, p5, p6, p7] = prediction_number(header.thresholds).to_le_bytes();
    let [h0, h1] = header.harts.to_le_bytes();
    let [a0, a1, a2, a3, a4, a5, a6, a7] = header.position.to_le_bytes();
    let [n0, n1, n2, n3, n4, n5, n6, n7] = header.lines.to_le_bytes();
    let [m0, m1, m2, m3, m4, m5, m6, m7] = header.tracks.to_le_bytes();
    [
        b'P', b'R', b'D', b'S', b'T', b'A', b'0', b'1', l0, l1, l2, l3, o0, o1, o2, o3, t0, t1, t2,
        t3, t4, t5, t6, t7, p0, p1, p2, p3, p4, p5, p6, p7, h0, h1, 0, 0, 0, 0, 0, 0, a0, a1, a2,
        a3, a4, a5, a6, a7, n0, n1, n2, n3, n4, n5, n6, n7, m0, m1, m2, m3, m4, m5, m6, m7,
    ]
}

/// The first address of a line, of a number up to 2^30.
pub fn base_of(layout: Layout, number: u64) -> i64
    requires { number ≤ 2 ^ 30 }
    ensures { result ≡ (line_range layout.size layout.offset number).base }
{
    let size = u64::from(layout.size());
    let end = number * size + u64::from(layout.offset());
    end.cast_signed() - size.cast_signed()
}

#[tactic(auto, unfolding(crate::specs::Spelling::spell_line))]
pub(crate) fn line_bytes(layout: Layout, line: CountedLine) -> [u8; 16]
    requires { line.number ≤ 2 ^ 30 }
    ensures { result ≡ spell_line layout line }
{
    let [b0, b1, b2, b3, b4, b5, b6, b7] = base_of(layout, line.number).to_le_bytes();
    let [w0, w1, w2, w3, w4, w5, w6, w7] = line.writes.to_le_bytes();
    [
        b0, b1, b2, b3, b4, b5, b6, b7, w0, w1, w2, w3, w4, w5, w6, w7,
    ]
}

// Appends the written lines.
fn push_lines(bytes: &mut Vec<u8>, layout: Layout, lines: &[CountedLine]) -> Result<(), NoMemory>
    requires { AreInRange lines.now }
    ensures { OnOk result (bytes.new.items
        ≡ bytes.old.items ++ flat_map (spell_line layout) lines.now) }
{
    for line in lines {
        bytes.extend_from_slice(&line_bytes(layout, *line))?;
    }
    Ok(())
}

// Appends tracks.
fn push_tracks(bytes: &mut Vec<u8>, refs: &[TrackRef<'_>]) -> Result<(), NoMemory>
    ensures { OnOk result (bytes.new.items
        ≡ bytes.old.items ++ flat_map spell_track (map track_of refs.now)) }
{
    for one in refs {
        push_track(bytes, one.track)?;
    }
    Ok(())
}

/// The bytes of a state: 64, 16 for each line, 32 for each track and 20 for each of its words.
///
/// NoMemory comes where there is no memory for them, for 8 bytes a track, or for the sort of the
/// tracks.
pub fn write_state(alloc: Global, state: &StateParts<'_>) -> Result<Vec<u8>, NoMemory>
    requires in_range { AreInRange state.now.lines.now }
    requires apart { AreApart state.now.tracks.now }
    ensures bytes { IfOk result (λ bytes. bytes.items ≡ spell_state (state_of state.now)) }
    ensures length { IfOk result (λ bytes. length bytes.items ≡ 64 + 16 * length state.now.lines.now
        + 32 * length state.now.tracks.now
        + 20 * sum_by (λ x. length x.words) state.now.tracks.now) }
{
    let refs = in_order(alloc, state.tracks)?;
    let mut bytes = Vec::new(alloc);
    bytes.extend_from_slice(&header_bytes(&header_of(state)))?;
    push_lines(&mut bytes, state.layout, state.lines)?;
    push_tracks(&mut bytes, &refs)?;
    Ok(bytes)
}
