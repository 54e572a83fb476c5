// Tracks that are added and cut off.
use base::{Hart, Range};
use line_tracks::{History, Shadow, Track, Tracks};
use sharing_rules::LineKind;
use std::mem::size_of;
use std::test::Fail;

#[test]
fn a_track_takes_at_most_100_bytes(rt: HostRuntime) {
    assert!(rt; size_of::<Track>() <= 100);
}

#[test]
fn adds_and_cuts(rt: HostRuntime) -> Result<(), Fail> {
    let range = Range {
        base: 0x1000,
        size: 64,
    };
    let mut tracks = Tracks::new(rt.alloc());
    let first = tracks.add(LineKind::Observed, range)?;
    assert_eq!(rt; first, 0);
    let hart = Hart::new(3).ok_or("hart 3")?;
    let shadow = Shadow::new(rt.alloc(), range)?;
    let start = Some((5, History::one(hart)));
    let second = tracks.add_saved(LineKind::Doubled, shadow, start, 2)?;
    assert_eq!(rt; second, 1);
    assert_eq!(rt; tracks.all().len(), 2);
    assert_eq!(rt; tracks.all()[1].start(), Some(5));
    tracks.cut(1);
    assert_eq!(rt; tracks.all().len(), 1);
    Ok(())
}
