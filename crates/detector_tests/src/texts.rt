// Addresses and names as reports write them.
use base::{address, printed_name};
use std::alloc::{AllocError, Global};
use std::test::Fail;

fn is_written(alloc: Global, at: i64, text: &str) -> Result<bool, AllocError> {
    Ok(address(alloc, at)?.as_str() == text)
}

fn is_printed(alloc: Global, name: &[u8], text: &str) -> Result<bool, AllocError> {
    Ok(printed_name(alloc, name)?.as_str() == text)
}

const ADDRESSES: [(i64, &str); 5] = [
    (0, "0x00000000"),
    (0x1020, "0x00001020"),
    (0xffff_ffc0, "0xffffffc0"),
    (0x1_0000_0000, "0x100000000"),
    (-0x20, "-0x00000020"),
];

#[test]
fn writes_addresses(rt: HostRuntime) -> Result<(), Fail> {
    for (at, text) in &ADDRESSES {
        assert!(rt; is_written(rt.alloc(), *at, text)?, "{text}");
    }
    Ok(())
}

#[test]
fn prints_names(rt: HostRuntime) -> Result<(), Fail> {
    let alloc = rt.alloc();
    assert!(rt; is_printed(alloc, b"", "?")?);
    assert!(rt; is_printed(alloc, b"a b\\~\x7f\xff\x00", "a\\x20b\\x5c~\\x7f\\xff\\x00")?);
    Ok(())
}
