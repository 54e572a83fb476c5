// Both indexes, used through what the trait says alone.
ghost use Rattle.std.specs.Prelude.{◌≡◌, ◌≢◌, ℕ, ◌≤◌, ◌^◌, IsOk, IsTrue, OnErr, OnOk};
ghost use Rattle.detector.specs.Entries.{entry_at};

use crate::MapIndex;
use base::NoMemory;
use detector::{LineEntry, LineIndex, PagedIndex, TrackNumber};
use std::process::Abort;
use std::test::Fail;

// Sets how often a line was written.
fn set_writes<I: LineIndex>(index: &mut I, line: u64, writes: u64) -> Result<(), NoMemory>
    requires { line ≤ 2 ^ 30 }
    ensures succeeds { IsTrue (I.has_place index.old line) → IsOk result }
    ensures set { OnOk result ((entry_at (I.entries index.new) line).writes ≡ writes) }
    ensures others { OnOk result ((q : ℕ) → q ≢ line
        → entry_at (I.entries index.new) q ≡ entry_at (I.entries index.old) q) }
    ensures placed { OnOk result (IsTrue (I.has_place index.new line)) }
    ensures refused { OnErr result (I.entries index.new ≡ I.entries index.old) }
{
    match index.entry(line) {
        Ok(entry) => {
            entry.writes = writes;
            Ok(())
        }
        Err(refused) => Err(refused),
    }
}

// The entry of a line without a track that was written so often.
fn written(writes: u64) -> LineEntry {
    LineEntry {
        writes,
        track: TrackNumber::none(),
        shifted: TrackNumber::none(),
        doubled: TrackNumber::none(),
    }
}

// From where a search goes, and the written line that it finds.
const NEXT: [(u64, Option<u64>); 4] = [
    (0, Some(1)),
    (2, Some(64)),
    (66, Some(1 << 26)),
    ((1 << 26) + 1, None),
];

// Writes lines in two neighbouring pages, and one far away.
fn write_lines<I: LineIndex>(index: &mut I) -> Result<(), Fail> {
    set_writes(index, 1, 1)?;
    set_writes(index, 64, 1)?;
    set_writes(index, 65, 1)?;
    set_writes(index, 1 << 26, 1)?;
    Ok(())
}

fn finds_written_lines<I: LineIndex>(rt: &impl Abort, index: &mut I) -> Result<(), Fail> {
    write_lines(index)?;
    for row in &NEXT {
        let (from, next) = *row;
        assert!(rt; from <= 1 << 30);
        assert_eq!(rt; index.next_from(from), next, "from {from}");
    }
    assert_eq!(rt; index.peek(63), written(0));
    // The line below on the same page and on another one, and a line without a place.
    assert_eq!(rt; index.below(65), Some(written(1)));
    assert_eq!(rt; index.below(64), Some(written(0)));
    assert_eq!(rt; index.below(1 << 20), None);
    Ok(())
}

#[test]
fn map_index_finds_written_lines(rt: HostRuntime) -> Result<(), Fail> {
    finds_written_lines(&rt, &mut MapIndex::new(rt.alloc()))
}

#[test]
fn paged_index_finds_written_lines(rt: HostRuntime) -> Result<(), Fail> {
    finds_written_lines(&rt, &mut PagedIndex::new(rt.alloc()))
}
