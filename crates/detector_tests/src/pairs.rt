// One search, by hand.
ghost use Rattle.std.specs.Prelude.{◌≡◌, ◌<◌};

use crate::stated::{StatedAccess, note_all};
use base::Kind::{Read, Write};
use base::{Range, Steps};
use line_tracks::{Pair, Shadow, best_pair};
use std::marker::Brand;
use std::process::Abort;
use std::sync::ledger::{Blank, Ledger};
use std::test::Fail;

const LOWER: Range = Range {
    base: 0x1000,
    size: 32,
};

const UPPER: Range = Range {
    base: 0x1020,
    size: 32,
};

const WRITES: [StatedAccess; 4] = [
    (0, 0x1000, Write),
    (0, 0x101c, Write),
    (0, 0x1000, Write),
    (0, 0x101c, Write),
];

const READS: [StatedAccess; 4] = [
    (1, 0x1020, Read),
    (1, 0x1024, Read),
    (1, 0x1020, Read),
    (1, 0x1024, Read),
];

#[test]
fn finds_the_best_pair(rt: HostRuntime) -> Result<(), Fail> {
    let mut lower = Shadow::new(rt.alloc(), LOWER)?;
    let mut upper = Shadow::new(rt.alloc(), UPPER)?;
    note_all(&rt, &mut lower, &WRITES)?;
    note_all(&rt, &mut upper, &READS)?;
    finds_pairs(&rt, &lower, &upper);
    Ok(())
}

// A greatest distance, and the pair within it.
const PAIRS: [(Option<u32>, Option<Pair>); 3] = [
    (
        None,
        Some(Pair {
            x: 0x1000,
            y: 0x1020,
        }),
    ),
    (
        Some(8),
        Some(Pair {
            x: 0x101c,
            y: 0x1020,
        }),
    ),
    (Some(7), None),
];

fn finds_pairs(rt: &impl Abort, lower: &Shadow, upper: &Shadow) {
    for row in &PAIRS {
        let (within, want) = *row;
        let found = found::<Brand, _>(rt, Blank::new(1), lower, upper, within);
        assert_eq!(rt; found, want, "within {within:?}");
    }
}

// The best pair of the lines at 0x1000 and 0x1020.
fn found<L: Ledger, R: Abort>(
    rt: &R,
    blank: Blank,
    lower: &Shadow,
    upper: &Shadow,
    within: Option<u32>,
) -> Option<Pair>
    requires name { blank.name ≡ L.name }
    requires parts { blank.parts ≡ L.parts }
    requires some { 0 < blank.parts }
{
    assert!(rt; lower.range().base == 0x1000);
    assert!(rt; lower.range().size == 32);
    assert!(rt; upper.range().base == 0x1020);
    assert!(rt; upper.range().size == 32);
    let mut steps = Steps::<L>::new(blank);
    best_pair(lower, upper, within, &mut steps)
}
