// The harts that come to a line, one by one.
use base::Hart;
use line_tracks::History;
use std::test::Fail;

#[test]
fn keeps_the_first_two_since_the_last_write(rt: HostRuntime) -> Result<(), Fail> {
    let writer = Hart::new(0).ok_or("hart 0")?;
    let reader = Hart::new(1).ok_or("hart 1")?;
    let late = Hart::new(2).ok_or("hart 2")?;
    let mut history = History::one(writer);
    history.note_read(reader);
    history.note_read(late);
    assert!(rt; history.first() == writer && history.second() == Some(reader));
    assert!(rt; history.note_write(writer));
    history.note_read(writer);
    assert!(rt; history.first() == writer && history.second().is_none());
    assert!(rt; !history.note_write(writer));
    Ok(())
}
