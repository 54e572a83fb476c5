// Laws of the definitions, for whoever reads contracts alone. Each call does nothing.
ghost use Rattle.std.specs.Prelude.{ℕ, ◌≤◌, List};
ghost use Rattle.base.specs.Lines.{Grid};
ghost use Rattle.sharing_rules.specs.AccessLists.{AccessList};
ghost use Rattle.sharing_rules.specs.Filtered.{IsWithoutRedundant};
ghost use Rattle.invalidations.specs.Latest.{accesses_of};
ghost use Rattle.invalidations.specs.declared.sited.Sited.{Sited};
ghost use Rattle.trace_files.specs.Moves.{IsFree, moved_list};
ghost use Rattle.trace_files.specs.Tables.{IsTable};
ghost use Rattle.trace_files.specs.declared.move_row.Move.{Move};
ghost use Rattle.filtered_counts.specs.SameCounts.{IsWithin, SameCounts};
ghost use Rattle.filtered_counts.specs.SameHarts.{IsSitedWithoutRedundant, SameHarts};
ghost use Rattle.trace_files.specs.NearMoves.{IsNearTable, moved_near};
ghost use Rattle.filtered_moves.specs.MovedSites.{moved_sited};

/// By a near table the moved list of a list without redundant accesses is the moved list of the
/// whole one without redundant accesses, and has its counts.
pub fn near_moves_keep_counts()
    ensures moved { (k : ℕ) (table : List Move) (u v : AccessList) → 2 ≤ k → IsTable table
        → IsNearTable k table v → IsWithoutRedundant k u v
        → IsWithoutRedundant (moved_near k) (moved_list table u) (moved_list table v) }
    ensures counts { (k : ℕ) (table : List Move) (u v : AccessList) (g : Grid) → 2 ≤ k
        → IsTable table → IsNearTable k table v → IsWithoutRedundant k u v
        → IsWithin (moved_near k) g → SameCounts g (moved_list table u) (moved_list table v) }
    // the same of lists with pcs
    ensures sited { (k : ℕ) (table : List Move) (u w : List Sited) → 2 ≤ k → IsTable table
        → IsNearTable k table (accesses_of w) → IsSitedWithoutRedundant k u w
        → IsSitedWithoutRedundant (moved_near k) (moved_sited table u) (moved_sited table w) }
    ensures harts { (k : ℕ) (table : List Move) (u w : List Sited) (g : Grid) → 2 ≤ k
        → IsTable table → IsNearTable k table (accesses_of w) → IsSitedWithoutRedundant k u w
        → IsWithin (moved_near k) g → SameHarts g (moved_sited table u) (moved_sited table w) }
    // the whole list may be moved where the other may
    ensures free { (k : ℕ) (table : List Move) (u v : AccessList) → IsTable table
        → IsFree table v → IsWithoutRedundant k u v → IsFree table u }
{}
