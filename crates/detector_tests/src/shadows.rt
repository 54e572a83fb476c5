// The words of a range, by hand.
use crate::stated::{access_of, note, shows_word};
use base::{Access, Hart, Kind, Range};
use line_tracks::Shadow;
use sharing_rules::{Owner, Word};
use std::mem::size_of;
use std::process::Abort;
use std::test::Fail;

#[test]
fn a_word_takes_at_most_24_bytes(rt: HostRuntime) {
    assert!(rt; size_of::<Word>() <= 24);
}

// A read of half a word by hart 1.
fn read_half() -> Option<Access> {
    Access::new(Hart::new(1)?, 0x1006, Kind::Read, 2)
}

#[test]
fn counts_each_word(rt: HostRuntime) -> Result<(), Fail> {
    let range = Range {
        base: 0x1000,
        size: 32,
    };
    let mut shadow = Shadow::new(rt.alloc(), range)?;
    let write = access_of(&(0, 0x1004, Kind::Write)).ok_or("a word")?;
    let read = read_half().ok_or("a halfword")?;
    note(&rt, &mut shadow, write);
    note(&rt, &mut shadow, read);
    shows_words(&rt, &shadow);
    Ok(())
}

// Both accesses are of the word behind the first one.
fn shows_words(rt: &impl Abort, shadow: &Shadow) {
    let shared = Word {
        reads: 1,
        writes: 1,
        owner: Owner::Many,
    };
    assert_eq!(rt; shadow.total(), 2);
    shows_word(rt, shadow, 0, Word::blank(), false);
    shows_word(rt, shadow, 1, shared, true);
}
