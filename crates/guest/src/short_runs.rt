// Laws of whole runs, for callers whose own clauses speak of runs that no guest makes.
ghost use Rattle.std.specs.Prelude.{◌≡◌};
ghost use Rattle.guest.specs.Configs.{Config};
ghost use Rattle.guest.specs.Runs.{IsShort, run_of};
ghost use Rattle.guest.specs.declared.setup.Setup.{Setup};

/// Every run from a configuration that has counted nothing yet makes at most as many steps as its
/// budget has, and its end states how many accesses it made. Nothing is done.
pub fn runs_are_short()
    ensures { (s : Setup) (c : Config) → c.steps ≡ 0 → c.accesses ≡ 0 → IsShort s (run_of s c) }
{}
