// Laws of the definitions, for whoever reads contracts alone. Each call does nothing.
ghost use Rattle.std.specs.Prelude.{◌≡◌, ℕ, ◌*◌, ◌<◌, ◌≤◌, Bool, [], ◌∷◌, ◌++◌, length, filter_map};
ghost use Rattle.std.specs.Prelude.{Some, IsTrue};
ghost use Rattle.std.specs.List.{All, IsDistinct};
ghost use Rattle.std.specs.List.Sorted.{IsPermutation};
ghost use Rattle.base.specs.Levels.{Levels};
ghost use Rattle.base.specs.Lines.{Grid};
ghost use Rattle.base.specs.Touch.{Touch};
ghost use Rattle.sharing_rules.specs.AccessLists.{AccessList};
ghost use Rattle.sharing_rules.specs.Lines.{native_grid};
ghost use Rattle.sharing_rules.specs.Listed.{Finding, listed, may_predict, tracked};
ghost use Rattle.sharing_rules.specs.Members.{ties};
ghost use Rattle.sharing_rules.specs.Observed.{first_write_from, observed_start};
ghost use Rattle.sharing_rules.specs.Opened.{Opened, doubled_ones, finding_of, is_placed_before};
ghost use Rattle.sharing_rules.specs.Opened.{observed_ones, opened, opened_now, shifted_ones};
ghost use Rattle.sharing_rules.specs.Predicted.{doubled_opening, is_native_size, shifted_line};
ghost use Rattle.sharing_rules.specs.Predicted.{shifted_opening};
ghost use Rattle.sharing_rules.specs.Recounts.{IsListedPlainly, IsRecounted};

/// A longer list moves no start and no opening, and a shifted line keeps its place.
pub fn a_longer_list_moves_no_start()
    ensures observed { (T : ℕ) (inside : ℕ → Bool) (t s : AccessList) (i : ℕ)
        → observed_start T inside t ≡ Some i → observed_start T inside (t ++ s) ≡ Some i }
    ensures started { (from : ℕ) (inside : ℕ → Bool) (t s : AccessList) (i : ℕ)
        → first_write_from from inside t ≡ Some i → first_write_from from inside (t ++ s) ≡ Some i }
    ensures shifted { (n T P k : ℕ) (t s : AccessList) (o : ℕ)
        → shifted_opening n T P k t ≡ Some o → shifted_opening n T P k (t ++ s) ≡ Some o }
    ensures placed { (n T P k : ℕ) (t s : AccessList) (o : ℕ)
        → shifted_opening n T P k t ≡ Some o
        → shifted_line n T P k (t ++ s) ≡ shifted_line n T P k t }
    ensures doubled { (n T P k : ℕ) (t s : AccessList) (o : ℕ)
        → doubled_opening n T P k t ≡ Some o → doubled_opening n T P k (t ++ s) ≡ Some o }
{}

/// What is kept of a list: after one access more, by kind and base, and how much of each kind.
pub fn kept_lines()
    // with one access more: what was kept, and what opens at the access
    ensures grows { (g : Grid) (v : Levels) (t : AccessList) (a : Touch)
        → 0 < g.size → 0 < v.tracking
        → IsPermutation (opened g v (t ++ a ∷ [])) (opened g v t ++ opened_now g v t a) }
    // no two have one kind and one base
    ensures apart { (g : Grid) (v : Levels) (t : AccessList) → 0 < g.size → IsTrue (may_predict g v)
        → IsDistinct (ties is_placed_before) (opened g v t) }
    // those with a start are the tracked lines
    ensures tracked { (g : Grid) (v : Levels) (t : AccessList)
        → tracked g v t ≡ filter_map (finding_of t) (opened g v t) }
    // fewer shifted lines than observed ones, where there are any
    ensures shifted { (n T P : ℕ) (t : AccessList) → 0 < length (observed_ones (native_grid n) T t)
        → length (shifted_ones n T P t) < length (observed_ones (native_grid n) T t) }
    // and at most half as many doubled ones
    ensures doubled { (n T P : ℕ) (t : AccessList) → IsTrue (is_native_size n)
        → 2 * length (doubled_ones n T P t) ≤ length (observed_ones (native_grid n) T t) }
{}

/// A plain recount of a line, over the same list, under the line's own layout and from its first
/// write on, counts no less than what is found of the line, and as much after the start of that.
pub fn findings_are_recounted()
    // of a line that may start from any position
    ensures kept { (t : AccessList) (o : Opened) (f : Finding)
        → finding_of t o ≡ Some f → IsRecounted t f }
    // so of every tracked line, predicted or observed, and of every listed one
    ensures tracked { (g : Grid) (v : Levels) (t : AccessList)
        → All (IsRecounted t) (tracked g v t) }
    ensures listed { (g : Grid) (v : Levels) (t : AccessList)
        → All (IsRecounted t) (listed g v t) }
    // which is listed with its recount under its own layout
    ensures plain { (g : Grid) (v : Levels) (t : AccessList)
        → All (IsListedPlainly v.report t) (listed g v t) }
{}
