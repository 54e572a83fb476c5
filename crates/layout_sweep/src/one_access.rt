// One access more, for those who don't count steps, and one record more.
ghost use Rattle.std.specs.Prelude.{◌≡◌, ◌+◌, ◌<◌, ◌^◌, [], ◌∷◌, ◌++◌, OnOk, OnErr};
ghost use Rattle.sharing_rules.specs.AccessLists.{AccessList};
ghost use Rattle.layout_sweep.specs.Standing.{StandsFor};
ghost use Rattle.layout_sweep.specs.Windows.{IsFirstWrite};

use crate::sweep::Sweep;
use base::{Access, NoMemory, Steps};
use std::marker::Brand;
use std::sync::ledger::{Blank, Ledger};

/// `Sweep::on_access` with a counter of steps of its own, which costs nothing.
#[inline]
pub fn see(sweep: &mut Sweep, access: Access) -> Result<(), NoMemory>
    requires { sweep.old.position < 2 ^ 40 }
    ensures stands { (t : AccessList) → StandsFor t sweep.old
        → OnOk result (StandsFor (t ++ access ∷ []) sweep.new) }
    ensures size { sweep.new.size ≡ sweep.old.size }
    ensures next { OnOk result (sweep.new.position ≡ sweep.old.position + 1) }
    ensures known { (t : AccessList) → StandsFor t sweep.old
        → OnErr result (IsFirstWrite sweep.old.size t access) }
    ensures same { OnErr result (sweep.new.position ≡ sweep.old.position) }
    ensures still { (t : AccessList) → StandsFor t sweep.old
        → OnErr result (StandsFor t sweep.new) }
{
    counted::<Brand>(sweep, access, Blank::new(1))
}

// The same, with a counter that begins with a blank.
#[inline]
fn counted<L: Ledger>(sweep: &mut Sweep, access: Access, blank: Blank) -> Result<(), NoMemory>
    requires name { blank.name ≡ L.name }
    requires parts { blank.parts ≡ L.parts }
    requires some { 0 < blank.parts }
    requires early { sweep.old.position < 2 ^ 40 }
    ensures stands { (t : AccessList) → StandsFor t sweep.old
        → OnOk result (StandsFor (t ++ access ∷ []) sweep.new) }
    ensures size { sweep.new.size ≡ sweep.old.size }
    ensures next { OnOk result (sweep.new.position ≡ sweep.old.position + 1) }
    ensures known { (t : AccessList) → StandsFor t sweep.old
        → OnErr result (IsFirstWrite sweep.old.size t access) }
    ensures same { OnErr result (sweep.new.position ≡ sweep.old.position) }
    ensures still { (t : AccessList) → StandsFor t sweep.old
        → OnErr result (StandsFor t sweep.new) }
{
    let mut steps = Steps::<L>::new(blank);
    sweep.on_access(access, &mut steps)
}
