// One access more, for those who don't count steps.
ghost use Rattle.std.specs.Prelude.{◌≡◌, ◌<◌, ◌^◌, [], ◌∷◌, ◌++◌, IsOk, IsFalse, OnOk, OnErr};
ghost use Rattle.sharing_rules.specs.AccessLists.{AccessList};
ghost use Rattle.detector.specs.Standing.{StandsFor};
ghost use Rattle.detector.specs.Watch.{takes_memory, watched};

use crate::LineIndex;
use crate::detector::Detector;
use base::{Access, NoMemory, Steps};
use std::marker::Brand;
use std::sync::ledger::{Blank, Ledger};

/// `Detector::on_access` with a counter of steps of its own, which costs nothing.
#[inline]
pub fn see<I: LineIndex>(detector: &mut Detector<I>, access: Access) -> Result<(), NoMemory>
    requires { detector.old.position < 2 ^ 40 }
    ensures watched { OnOk result (detector.new ≡ watched detector.old access) }
    ensures same { OnErr result (detector.new ≡ detector.old) }
    ensures known { IsFalse (takes_memory detector.old access) → IsOk result }
    ensures stands { OnOk result ((t : AccessList)
        → StandsFor t detector.old → StandsFor (t ++ access ∷ []) detector.new) }
    ensures still { OnErr result ((t : AccessList) → StandsFor t detector.old
        → StandsFor t detector.new) }
{
    counted::<Brand, I>(detector, access, Blank::new(1))
}

// The same, with a counter that begins with a blank.
#[inline]
fn counted<L: Ledger, I: LineIndex>(
    detector: &mut Detector<I>,
    access: Access,
    blank: Blank,
) -> Result<(), NoMemory>
    requires name { blank.name ≡ L.name }
    requires parts { blank.parts ≡ L.parts }
    requires some { 0 < blank.parts }
    requires early { detector.old.position < 2 ^ 40 }
    ensures watched { OnOk result (detector.new ≡ watched detector.old access) }
    ensures same { OnErr result (detector.new ≡ detector.old) }
    ensures known { IsFalse (takes_memory detector.old access) → IsOk result }
    ensures stands { OnOk result ((t : AccessList)
        → StandsFor t detector.old → StandsFor (t ++ access ∷ []) detector.new) }
    ensures still { OnErr result ((t : AccessList) → StandsFor t detector.old
        → StandsFor t detector.new) }
{
    let mut steps = Steps::<L>::new(blank);
    detector.on_access(access, &mut steps)
}
