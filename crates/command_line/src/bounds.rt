// What words ask for is within its bounds, for whoever reads contracts alone.
ghost use Rattle.std.specs.Prelude.{◌≡◌, List, Some};
ghost use Rattle.clap.specs.Words.{Text};
ghost use Rattle.command_line.specs.Words.{Demand, demand_of, terms_of};

/// Whatever words ask for is within its bounds. Nothing is done.
pub fn what_is_asked_is_bounded()
    ensures { (words : List Text) (demand : Demand) → demand_of words ≡ Some demand
        → (terms_of demand).IsWithin }
{}
