// A law of the exact step, for whoever reads contracts alone. The call does nothing.
ghost use Rattle.std.specs.Prelude.{◌≡◌, ◌+◌, ◌==◌, ◌<◌, ◌&&◌, ◌++◌, ◌∷◌, [], ℕ, List, Some};
ghost use Rattle.std.specs.Prelude.{if◌then◌else◌, map, slice_get, IsTrue};
ghost use Rattle.base.specs.Lines.{is_layout};
ghost use Rattle.base.specs.Touch.{Touch, is_write};
ghost use Rattle.sharing_rules.specs.AccessLists.{AccessList};
ghost use Rattle.sharing_rules.specs.Listed.{may_predict};
ghost use Rattle.line_tracks.specs.TrackValue.{TrackValue};
ghost use Rattle.detector.specs.Changes.{AddNoTracks, touched_all, watched_all};
ghost use Rattle.detector.specs.Counts.{count_at};
ghost use Rattle.detector.specs.Named.{number_of};
ghost use Rattle.detector.specs.Standing.{StandsFor};
ghost use Rattle.detector.specs.Watch.{Watch, touched, watched};

/// What an access changes of what a detector holds, whether or not an access list has it: the
/// position and the writes of its line rise by one, and each track that was there is noted where
/// its range holds the address, and stays where it doesn't. Where no write of a list meets a
/// threshold, no track is added. Where it stood for a list, it stands for the list with the access.
/// Nothing is done.
pub fn an_access_changes_what_it_meets()
    ensures position { (w : Watch) (a : Touch) → (watched w a).position ≡ w.position + 1 }
    ensures writes { (w : Watch) (a : Touch) (k : ℕ) → count_at (watched w a).writes k
        ≡ (if is_write a.kind && (k == number_of w.grid a) then count_at w.writes k + 1
        else count_at w.writes k) }
    ensures tracks { (w : Watch) (a : Touch) (i : ℕ) (x : TrackValue) → slice_get w.tracks i ≡ Some x
        → slice_get (watched w a).tracks i ≡ Some (touched w.position a x) }
    ensures none_added { (w : Watch) (t : List Touch) → AddNoTracks w t
        → (watched_all w t).tracks ≡ map (touched_all w.position t) w.tracks }
    ensures stands { (w : Watch) (t : AccessList) (a : Touch)
        → IsTrue (is_layout w.grid.size w.grid.offset) → IsTrue (may_predict w.grid w.levels)
        → 0 < w.levels.tracking → StandsFor t w → StandsFor (t ++ a ∷ []) (watched w a) }
{}
