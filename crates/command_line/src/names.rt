// Names of files that may be given.
ghost use Rattle.std.specs.Prelude.{◌≡◌, []};
ghost use Rattle.command_line.specs.Demands.{text_of};
ghost use Rattle.command_line.specs.Names.{given, is_named};

// Whether a name is one that may be given.
pub fn is_given(name: &str, other: Option<&str>) -> bool
    ensures { result ≡ is_named name.now (given (text_of other.entry) []) }
{
    match other {
        Some(other) => name == other,
        None => false,
    }
}
