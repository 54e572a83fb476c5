// The stamps of regions. That of region r stands at place r + 1, so that there is a place below each.
ghost use Rattle.std.specs.Prelude.{◌≡◌, ℕ, ◌+◌, ◌<◌, ◌≤◌, ◌^◌, ◌⊎◌, IsTrue, OnOk, OnErr};
ghost use Rattle.access_filter.specs.Stamps.{IsVisited, number_of};
ghost use Rattle.access_filter.specs.Pages.{has_stamp, stamp_at};
ghost use Rattle.access_filter.specs.Rules.{HasBlankBeside};

use crate::pages::{Page, make_page, visit};
use base::{Hart, NoMemory};
use std::alloc::Global;

/// Makes the pages of a region's stamp and of the two beside it. NoMemory leaves all stamps as they
/// were, and comes only where one of them is blank.
pub fn make_room(pages: &mut Vec<Page>, region: u64, alloc: Global) -> Result<(), NoMemory>
    requires { region < 2 ^ 32 }
    ensures same { (q : ℕ) → stamp_at pages.new.items q ≡ stamp_at pages.old.items q }
    ensures made { OnOk result ((q : ℕ) → region ≤ q → q ≤ region + 2
        → IsTrue (has_stamp pages.new.items q)) }
    ensures blank { OnErr result (HasBlankBeside (stamp_at pages.old.items) region) }
{
    // A page begins between the three, or all lie in one. Then the last is enough.
    if region % 4096 >= 4094 {
        match make_page(pages, region, alloc) {
            Ok(()) => (),
            Err(refused) => return Err(refused),
        }
    }
    match make_page(pages, region + 1, alloc) {
        Ok(()) => make_page(pages, region + 2, alloc),
        Err(refused) => Err(refused),
    }
}

/// A hart comes near a region and the two beside it, by an access in it.
#[inline(always)]
pub fn visit_all(pages: &mut Vec<Page>, region: u64, hart: Hart)
    requires early { region < 2 ^ 32 }
    requires there { (q : ℕ) → region ≤ q → q ≤ region + 2 → IsTrue (has_stamp pages.old.items q) }
    requires few { (q : ℕ) → number_of (stamp_at pages.old.items q) < 2 ^ 63 }
    ensures inside { (q : ℕ) → region ≤ q → q ≤ region + 2
        → IsVisited hart (stamp_at pages.old.items q) (stamp_at pages.new.items q) }
    ensures outside { (q : ℕ) → (q < region) ⊎ (region + 2 < q)
        → stamp_at pages.new.items q ≡ stamp_at pages.old.items q }
{
    visit(pages, region, hart);
    visit(pages, region + 1, hart);
    visit(pages, region + 2, hart);
}
