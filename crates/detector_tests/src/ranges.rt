// The ranges of predicted lines, by hand.
use line_tracks::{doubled_range, shifted_range};
use std::test::Fail;

#[test]
fn shifted_and_doubled_ranges(rt: HostRuntime) -> Result<(), Fail> {
    let shifted = shifted_range(0x101c, 0x1020, 32).ok_or("neighbouring words")?;
    assert!(rt; shifted.base == 0x1010 && shifted.size == 32);
    assert!(rt; shifted_range(0x1000, 0x1020, 32).is_none());
    let doubled = doubled_range(0x1020, 32);
    assert!(rt; doubled.base == 0x1000 && doubled.size == 64);
    Ok(())
}
