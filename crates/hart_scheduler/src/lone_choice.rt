// Laws of choices, for callers that know which hart alone is runnable.
ghost use Rattle.std.specs.Prelude.{◌≡◌, ℕ, Bool, List, Some, length};
ghost use Rattle.hart_scheduler.specs.Choices.{AreOf, IsLone, Plan, choice};

/// The only runnable hart is the one that is chosen, whatever a schedule has still to say. Nothing
/// is done.
#[inline]
pub fn lone_is_chosen()
    ensures { (runnable : List Bool) (plan : Plan) (hart : ℕ) → length runnable ≡ plan.harts
        → IsLone runnable hart → choice runnable plan ≡ Some hart }
{}

/// And it is chosen again and again. Nothing is done.
#[inline]
pub fn lone_goes_on()
    ensures { (runnable : List Bool) (plan : Plan) (hart n : ℕ) → length runnable ≡ plan.harts
        → IsLone runnable hart → AreOf runnable plan n hart }
{}
