// Laws of what is read, for callers whose own clauses speak of states.
ghost use Rattle.std.specs.Prelude.{◌≡◌, ◌++◌, ℕ, List, length, Ok};
ghost use Rattle.base.specs.Levels.{Levels};
ghost use Rattle.base.specs.Lines.{Grid};
ghost use Rattle.sharing_rules.specs.AccessLists.{AccessList};
ghost use Rattle.saved_state.specs.OfLists.{MayKeep, sorted_state_in, state_of_list};
ghost use Rattle.saved_state.specs.Reading.{BeginsWith, IsGood, read_state};
ghost use Rattle.saved_state.specs.Spelling.{State, spell_state};

/// What is read of a state is what its bytes spell, and a good state is read again, whatever
/// follows. Nothing is done.
pub fn what_is_read_was_spelled()
    ensures found { (bytes : List ℕ) (s : State) (place : ℕ) → read_state bytes ≡ Ok (s, place)
        → BeginsWith bytes s place }
    ensures again { (s : State) (more : List ℕ) → IsGood s
        → read_state (spell_state s ++ more) ≡ Ok (s, length (spell_state s)) }
{}

/// The state of a list is good, and so it is read as what is kept of the list, whatever follows.
/// Nothing is done.
pub fn the_state_of_a_list_is_good()
    ensures good { (g : Grid) (v : Levels) (harts : ℕ) (t : AccessList) → MayKeep g v harts t
        → IsGood (sorted_state_in g v harts t) }
    ensures read { (g : Grid) (v : Levels) (harts : ℕ) (t : AccessList) (more : List ℕ)
        → MayKeep g v harts t → read_state (state_of_list g v harts t ++ more)
        ≡ Ok (sorted_state_in g v harts t, length (state_of_list g v harts t)) }
{}
