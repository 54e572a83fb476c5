// A law of kept lines, for whoever reads contracts alone. The call does nothing.
ghost use Rattle.std.specs.Prelude.{ℕ, ◌≤◌, filter, length, IsTrue};
ghost use Rattle.base.specs.Levels.{Levels};
ghost use Rattle.base.specs.Lines.{Grid, is_layout};
ghost use Rattle.sharing_rules.specs.AccessLists.{AccessList};
ghost use Rattle.sharing_rules.specs.Listed.{may_predict};
ghost use Rattle.sharing_rules.specs.Opened.{opened};
ghost use Rattle.line_tracks.specs.Laws.Few.{holds};

/// At most four of the lines that are kept of a list hold an address: the observed one, the shifted
/// ones of its pairs with both neighbours, and the doubled one.
pub fn at_most_four_lines_hold_an_address()
    ensures { (g : Grid) (v : Levels) (t : AccessList) (a : ℕ)
        → IsTrue (is_layout g.size g.offset) → IsTrue (may_predict g v)
        → length (filter (holds a) (opened g v t)) ≤ 4 }
{}
