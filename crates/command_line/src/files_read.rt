// Which files a command reads.
ghost use Rattle.std.specs.Prelude.{◌≡◌, None, Some, option_map};
ghost use Rattle.command_line.specs.FilesRead.{read_as, trace_read};

/// A trace that a command reads.
#[derive(Clone, Copy, PartialEq, Eq, Debug)]
pub struct TraceToRead<'a> {
    /// Its name, as it stands in the words.
    pub name: &'a str,
    /// Whether it is read more than once from its front to its end.
    pub again: bool,
}

/// The files that a command reads, where it reads such ones.
#[derive(Clone, Copy)]
pub struct FilesRead<'a> {
    /// Its settings.
    pub settings: Option<&'a str>,
    /// The saved state that it goes on from.
    pub state: Option<&'a str>,
    /// Its trace.
    pub trace: Option<TraceToRead<'a>>,
    /// Its program.
    pub program: Option<&'a str>,
    /// Its schedule.
    pub schedule: Option<&'a str>,
    /// Its table of moves.
    pub table: Option<&'a str>,
}

impl<'a> FilesRead<'a> {
    /// None at all.
    pub fn none() -> FilesRead<'a>
        ensures { result.trace ≡ None }
    {
        FilesRead {
            settings: None,
            state: None,
            trace: None,
            program: None,
            schedule: None,
            table: None,
        }
    }
}

// A trace that is read so, and nothing else.
pub fn of_trace(name: &str, again: bool) -> FilesRead<'_>
    ensures { option_map trace_read result.trace ≡ Some (read_as name.now again) }
{
    FilesRead {
        trace: Some(TraceToRead { name, again }),
        ..FilesRead::none()
    }
}

// What a run of a program reads.
pub fn of_program<'a>(
    program: &'a str,
    settings: Option<&'a str>,
    schedule: Option<&'a str>,
) -> FilesRead<'a>
    ensures { result.trace ≡ None }
{
    FilesRead {
        settings,
        program: Some(program),
        schedule,
        ..FilesRead::none()
    }
}
