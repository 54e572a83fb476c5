// The bytes of a track.
ghost use Rattle.std.specs.Prelude.{◌≡◌, ◌++◌, [], flat_map, get_or, length, option_map};
ghost use Rattle.std.specs.Prelude.{unwrap_or, OnOk};
ghost use Rattle.std.specs.Option.{option_map_or};
ghost use Rattle.saved_state.specs.Parts.{head_meant};
ghost use Rattle.saved_state.specs.Spelling.{no_hart, no_start, owner_number, spell_head};
ghost use Rattle.saved_state.specs.Spelling.{spell_track, spell_word};

use crate::state_parts::TrackHead;
use base::NoMemory;
use line_tracks::{History, Shadow, Track, rank};
use sharing_rules::{Owner, Word};

// What stands for no hart.
pub(crate) const NO_HART: u16 = 0xffff;

// What stands for many of them.
pub(crate) const MANY_HARTS: u16 = 0xfffe;

fn owner_number(owner: Owner) -> u16
    ensures { result ≡ owner_number owner }
{
    match owner {
        Owner::None => NO_HART,
        Owner::One(hart) => hart.number(),
        Owner::Many => MANY_HARTS,
    }
}

#[tactic(auto, unfolding(crate::specs::Spelling::spell_word))]
pub(crate) fn word_bytes(word: &Word) -> [u8; 20]
    ensures { result ≡ spell_word word.now }
{
    let [r0, r1, r2, r3, r4, r5, r6, r7] = word.reads.to_le_bytes();
    let [w0, w1, w2, w3, w4, w5, w6, w7] = word.writes.to_le_bytes();
    let [h0, h1] = owner_number(word.owner).to_le_bytes();
    [
        r0, r1, r2, r3, r4, r5, r6, r7, w0, w1, w2, w3, w4, w5, w6, w7, h0, h1, 0, 0,
    ]
}

// The entries of a track: how many there are, and their numbers.
#[derive(Clone, Copy)]
struct Entries {
    count: u8,
    first: u16,
    second: u16,
}

// The one entry or the two of a history.
fn entries_of(history: History) -> Entries
    ensures count { result.count ≡ length history }
    ensures first { result.first ≡ get_or history 0 no_hart }
    ensures second { result.second ≡ get_or history 1 no_hart }
{
    let first = history.first().number();
    match history.second() {
        None => Entries {
            count: 1,
            first,
            second: NO_HART,
        },
        Some(second) => Entries {
            count: 2,
            first,
            second: second.number(),
        },
    }
}

// The entries of a track, which has none before its start.
fn entries_in(head: &TrackHead) -> Entries
    ensures count { result.count ≡ length (head_meant head.now).entries }
    ensures first { result.first ≡ get_or (head_meant head.now).entries 0 no_hart }
    ensures second { result.second ≡ get_or (head_meant head.now).entries 1 no_hart }
{
    match head.start {
        None => Entries {
            count: 0,
            first: NO_HART,
            second: NO_HART,
        },
        Some((_, history)) => entries_of(history),
    }
}

// The start of a track, as a number.
fn start_number(head: &TrackHead) -> u64
    ensures { result ≡ unwrap_or (head_meant head.now).start no_start }
{
    match head.start {
        None => u64::MAX,
        Some((start, _)) => start,
    }
}

#[tactic(auto, unfolding(crate::specs::Spelling::spell_head))]
pub(crate) fn head_bytes(head: &TrackHead) -> [u8; 32]
    ensures { result ≡ spell_head (head_meant head.now) }
{
    let entries = entries_in(head);
    let [f0, f1] = entries.first.to_le_bytes();
    let [s0, s1] = entries.second.to_le_bytes();
    let [b0, b1, b2, b3, b4, b5, b6, b7] = head.range.base.to_le_bytes();
    let [p0, p1, p2, p3, p4, p5, p6, p7] = start_number(head).to_le_bytes();
    let [c0, c1, c2, c3, c4, c5, c6, c7] = head.count.to_le_bytes();
    let kind = rank(head.kind);
    let count = entries.count;
    [
        kind, count, f0, f1, s0, s1, 0, 0, b0, b1, b2, b3, b4, b5, b6, b7, p0, p1, p2, p3, p4, p5,
        p6, p7, c0, c1, c2, c3, c4, c5, c6, c7,
    ]
}

// The start of a track with its history.
fn start_of(track: &Track) -> Option<(u64, History)>
    ensures start { option_map (λ s. s.0) result ≡ track.now.start }
    ensures entries { option_map_or (λ s. s.1) result [] ≡ track.now.entries }
{
    let history = track.history();
    let Some(start) = track.start() else {
        return None;
    };
    let Some(history) = history else {
        return None;
    };
    Some((start, history))
}

// What a track states before its words.
#[tactic(auto, unfolding(crate::specs::Spelling::spell_head))]
fn head_of(track: &Track) -> TrackHead
    ensures { spell_head (head_meant result) ≡ spell_head track.now }
{
    TrackHead {
        kind: track.kind(),
        range: track.range(),
        start: start_of(track),
        count: track.count(),
    }
}

// Appends the words of a track.
fn push_words(bytes: &mut Vec<u8>, shadow: &Shadow) -> Result<(), NoMemory>
    ensures { OnOk result (bytes.new.items
        ≡ bytes.old.items ++ flat_map spell_word shadow.now.words) }
{
    for i in 0..shadow.range().size / 4 {
        bytes.extend_from_slice(&word_bytes(&shadow.word(i)))?;
    }
    Ok(())
}

/// Appends a track.
pub fn push_track(bytes: &mut Vec<u8>, track: &Track) -> Result<(), NoMemory>
    ensures { OnOk result (bytes.new.items ≡ bytes.old.items ++ spell_track track.now) }
{
    bytes.extend_from_slice(&head_bytes(&head_of(track)))?;
    push_words(bytes, track.shadow())
}
