// Accesses as rows of a table state them, and what was counted of them.
use base::{Access, Hart, Kind};
use line_tracks::Shadow;
use sharing_rules::Word;
use std::process::Abort;
use std::test::Fail;

/// An access of 4 bytes, given by its hart, its address and its kind.
pub type StatedAccess = (u16, u32, Kind);

pub fn access_of(stated: &StatedAccess) -> Option<Access> {
    let (hart, addr, kind) = *stated;
    Access::new(Hart::new(hart)?, addr, kind, 4)
}

/// Notes an access in the range of a shadow.
pub fn note(rt: &impl Abort, shadow: &mut Shadow, access: Access) {
    assert!(rt; shadow.range().contains(access.addr()));
    assert!(rt; shadow.total() < 1 << 40);
    shadow.note(access);
}

/// Notes these accesses.
pub fn note_all(rt: &impl Abort, shadow: &mut Shadow, stated: &[StatedAccess]) -> Result<(), Fail> {
    for one in stated {
        let access = access_of(one).ok_or("an access")?;
        note(rt, shadow, access);
    }
    Ok(())
}

// What was counted of the word at a place, and whether it is hot.
fn counted(shadow: &Shadow, place: u32) -> Option<(Word, bool)> {
    if place >= shadow.range().size / 4 {
        return None;
    }
    Some((shadow.word(place), shadow.is_hot(place)))
}

/// The word at a place was counted as is wanted, and is hot or not.
pub fn shows_word(rt: &impl Abort, shadow: &Shadow, place: u32, wanted: Word, is_hot: bool) {
    assert_eq!(rt;
        counted(shadow, place),
        Some((wanted, is_hot)),
        "word {place}"
    );
}
