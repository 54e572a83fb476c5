// Laws of the definitions, for whoever reads contracts alone. Each call does nothing.
ghost use Rattle.std.specs.Prelude.{◌≡◌, ℕ, ◌≤◌, ◌++◌, ◌∷◌, [], ◌&&◌, ◌||◌, not, IsTrue, List};
ghost use Rattle.std.specs.Prelude.{IsFalse};
ghost use Rattle.base.specs.Lines.{Grid};
ghost use Rattle.base.specs.Touch.{Touch};
ghost use Rattle.sharing_rules.specs.AccessLists.{AccessList};
ghost use Rattle.sharing_rules.specs.Filtered.{IsWithoutRedundant, comes_near, covers, filtered};
ghost use Rattle.sharing_rules.specs.Filtered.{is_redundant};
ghost use Rattle.invalidations.specs.Latest.{accesses_of};
ghost use Rattle.invalidations.specs.declared.sited.Sited.{Sited};
ghost use Rattle.filtered_counts.specs.SameCounts.{IsWithin, SameCounts, SameSweep};
ghost use Rattle.filtered_counts.specs.SameHarts.{IsSitedWithoutRedundant, SameHarts, filtered_sited};
ghost use Rattle.filtered_counts.specs.Witnesses.{KeptWitness};

/// A list without some of its redundant accesses, or all, has the misses and the invalidations of
/// the whole list: of each line and in all, under each layout with lines of at most 2^k bytes.
pub fn filtered_lists_keep_counts()
    ensures counts { (k : ℕ) (g : Grid) (t v : AccessList) → IsWithin k g
        → IsWithoutRedundant k t v → SameCounts g t v }
    // so has each row of a sweep
    ensures sweep { (k : ℕ) (t v : AccessList) → IsWithoutRedundant k t v → SameSweep k t v }
    // the filtered list is without all of them
    ensures filtered { (k : ℕ) (t : AccessList) → IsWithoutRedundant k t (filtered k t) }
{}

/// The same of lists with pcs: each hart invalidates each other one as often in each line.
pub fn filtered_lists_keep_harts()
    ensures harts { (k : ℕ) (g : Grid) (u w : List Sited) → IsWithin k g
        → IsSitedWithoutRedundant k u w → SameHarts g u w }
    // without pcs the two lists are a list and it without redundant accesses
    ensures accesses { (k : ℕ) (u w : List Sited) → IsSitedWithoutRedundant k u w
        → IsWithoutRedundant k (accesses_of u) (accesses_of w) }
    ensures filtered { (k : ℕ) (u : List Sited)
        → IsSitedWithoutRedundant k u (filtered_sited k u) }
    ensures same { (k : ℕ) (u : List Sited)
        → accesses_of (filtered_sited k u) ≡ filtered k (accesses_of u) }
{}

/// A redundant access has a witness that isn't redundant. So a list that lacks redundant accesses
/// has the filtered list of the whole one, and a filtered list is its own.
pub fn filtering_again_changes_nothing()
    ensures witness { (k : ℕ) (t : AccessList) (a : Touch) → 2 ≤ k → IsTrue (is_redundant k t a)
        → KeptWitness k t a }
    // the same accesses are redundant behind both lists
    ensures next { (k : ℕ) (t v : AccessList) (a : Touch) → 2 ≤ k → IsWithoutRedundant k t v
        → is_redundant k v a ≡ is_redundant k t a }
    ensures same { (k : ℕ) (t v : AccessList) → 2 ≤ k → IsWithoutRedundant k t v
        → filtered k v ≡ filtered k t }
    ensures twice { (k : ℕ) (t : AccessList) → 2 ≤ k
        → filtered k (filtered k t) ≡ filtered k t }
{}

/// Whether an access is redundant follows from the access right before it, and from whether it was
/// redundant before that one: so one pass over the list finds out.
pub fn redundant_accesses_follow_from_the_last()
    ensures first { (k : ℕ) (a : Touch) → IsFalse (is_redundant k [] a) }
    // one that covers it came last, or it was redundant and no other hart came near
    ensures next { (k : ℕ) (t : AccessList) (c a : Touch)
        → is_redundant k (t ++ c ∷ []) a
        ≡ ((is_redundant k t a && not (comes_near k a.hart a.addr c)) || covers c a) }
{}
