// Laws of what a part says, for whoever reads contracts alone.
ghost use Rattle.std.specs.Prelude.{◌≡◌, ◌<◌, ◌≤◌, ◌^◌, ℕ, List, Ok};
ghost use Rattle.std.specs.List.{All};
ghost use Rattle.objects.specs.Objects.{Objects};
ghost use Rattle.saved_state.specs.ObjectJudging.{objects_judged};
ghost use Rattle.saved_state.specs.ObjectRules.{IsPartOf, IsSavable};
ghost use Rattle.saved_state.specs.ObjectSpelling.{spell_objects};

/// What is taken up again is what was saved. Nothing is done.
pub fn what_is_resumed_was_saved()
    // bytes without a fault are the one spelling of the objects that they say, which are good
    ensures found { (place position : ℕ) (part : List ℕ) (o : Objects) → All (λ b. b < 256) part
        → objects_judged place position part ≡ Ok o → IsPartOf position part o }
    // and the spelling of good objects says them
    ensures again { (place position : ℕ) (o : Objects) → position ≤ 2 ^ 40 → IsSavable position o
        → objects_judged place position (spell_objects o) ≡ Ok o }
{}
