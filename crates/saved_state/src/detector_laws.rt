// A law of what is taken up again, for whoever reads contracts alone. The call does nothing.
ghost use Rattle.std.specs.Prelude.{◌≡◌, ◌++◌, ℕ, IsTrue, List, Ok, length};
ghost use Rattle.base.specs.Levels.{Levels};
ghost use Rattle.base.specs.Lines.{Grid, is_layout};
ghost use Rattle.sharing_rules.specs.AccessLists.{AccessList};
ghost use Rattle.sharing_rules.specs.Listed.{may_predict};
ghost use Rattle.saved_state.specs.OfLists.{MayKeep, state_of_list};
ghost use Rattle.saved_state.specs.Spelling.{spell_state};
ghost use Rattle.detector.specs.Standing.{StandsFor};
ghost use Rattle.detector.specs.Watch.{Watch};
ghost use Rattle.saved_state.specs.Resuming.{kept_of_list, resumption, resumption_in};
ghost use Rattle.saved_state.specs.Saving.{state_of};

/// From the state of a list, whatever follows, what is kept of the list is taken up, which stands
/// for the list; and what stands for a list is saved as its state. Nothing is done.
pub fn the_state_of_a_list_is_taken_up()
    ensures taken { (g : Grid) (v : Levels) (harts : ℕ) (t : AccessList) (more : List ℕ)
        → MayKeep g v harts t → resumption_in v.report (state_of_list g v harts t ++ more)
        ≡ Ok (resumption (kept_of_list g v harts t) harts (length (state_of_list g v harts t))) }
    ensures stands { (g : Grid) (v : Levels) (harts : ℕ) (t : AccessList) → MayKeep g v harts t
        → StandsFor t (kept_of_list g v harts t) }
    ensures saved { (harts : ℕ) (t : AccessList) (w : Watch)
        → IsTrue (is_layout w.grid.size w.grid.offset) → IsTrue (may_predict w.grid w.levels)
        → StandsFor t w → spell_state (state_of harts w) ≡ state_of_list w.grid w.levels harts t }
{}
