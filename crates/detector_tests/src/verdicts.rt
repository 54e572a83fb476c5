// The verdict after each access.
use crate::stated::{StatedAccess, note_all};
use base::{Kind, Range};
use line_tracks::{Shadow, verdict};
use sharing_rules::Verdict;
use std::process::Abort;
use std::test::Fail;

// A further access, and the verdict then.
fn then(rt: &impl Abort, shadow: &mut Shadow, stated: StatedAccess) -> Result<Verdict, Fail> {
    note_all(rt, shadow, &[stated])?;
    Ok(verdict(shadow))
}

// Each access, and the verdict after it.
const ROWS: [(StatedAccess, Verdict); 4] = [
    ((0, 0x1000, Kind::Write), Verdict::FalseSharing),
    ((1, 0x1004, Kind::Write), Verdict::FalseSharing),
    ((1, 0x1000, Kind::Read), Verdict::Mixed),
    ((0, 0x1004, Kind::Read), Verdict::TrueSharing),
];

fn judges_rows(rt: &impl Abort, shadow: &mut Shadow) -> Result<(), Fail> {
    for row in &ROWS {
        let (stated, want) = *row;
        assert_eq!(rt; then(rt, shadow, stated)?, want, "after {stated:?}");
    }
    Ok(())
}

#[test]
fn judges_each_access_more(rt: HostRuntime) -> Result<(), Fail> {
    let range = Range {
        base: 0x1000,
        size: 32,
    };
    let mut shadow = Shadow::new(rt.alloc(), range)?;
    judges_rows(&rt, &mut shadow)
}
