// How the program ends.
ghost use Rattle.std.specs.Prelude.{◌≡◌};
ghost use Rattle.command_io.specs.Numbers.{number_of};

use base::{NoMemory, ResumeFault};
use hart_scheduler::ScheduleFault;
use placement::PlaceRefusal;
use program_files::{ElfFault, PlaceFault};
use settings::SettingsFault;
use shelf::ShelfError;
use trace_files::TableFault;
use trace_format::TraceFault;

/// Why a saved state isn't taken up again, or a trace doesn't go on from where the count of it
/// stands.
#[derive(Clone, Copy, Debug, PartialEq, Eq)]
pub enum StateFault {
    /// The first unit of the state that is at fault, by its place in bytes.
    BadState(u64),
    /// The layout, the thresholds or the trace's harts differ from those that were counted before,
    /// first in the field that stands at this place of the state.
    WrongSettings(u64),
    /// The trace's first access has another position than the next one to count.
    WrongPosition {
        /// The position of the next access to count: 0 where nothing was counted before.
        saved: u64,
        /// The position of the trace's first access.
        first: u64,
    },
    /// The state has more than 2^40 bytes.
    TooLong,
}

/// How the program ends.
#[derive(Debug, PartialEq, Eq, Drop)]
pub enum Status {
    /// The whole work is done, and its whole text printed. A run ended with an exit.
    Done,
    /// The words ask for nothing that the program does.
    Usage,
    /// The program file has this fault.
    Elf(ElfFault),
    /// The schedule has this fault, which is never want of memory.
    Schedule(ScheduleFault),
    /// The settings file has this fault, which is never want of memory.
    Settings(SettingsFault),
    /// The trace has this fault, which is never want of memory.
    Trace(TraceFault),
    /// The command needs the pc of each access, and the trace is of version 1 or 2, which have
    /// none.
    NoPcs,
    /// The trace is filtered, and the command needs all accesses.
    Filtered,
    /// The trace is filtered, and the lines have more bytes than its regions.
    TooWide,
    /// The saved state has this fault, or the trace doesn't go on from where the count of it
    /// stands.
    State(StateFault),
    /// A file could not be read.
    ReadFault,
    /// A text could not be printed, or a file not be written.
    WriteFault,
    /// Memory ran out.
    NoMemory,
    /// The whole work is done, and the run took all steps that it may take.
    Budget,
    /// The whole work is done, and the run ended where no hart could run.
    Deadlock,
    /// The whole work is done, and the run ended at an instruction that could not be carried out.
    Trapped,
    /// An object gets no place, for this reason.
    Place(PlaceRefusal),
    /// The table of moves has this fault, which is never want of memory.
    Table(TableFault),
    /// The access of this address is in no range of the table of moves, and lies in a place of it.
    Occupied(u32),
    /// The trace is filtered, and the table of moves brings a byte near the access of this address
    /// that wasn't near it before.
    Far(u32),
}

impl Status {
    /// The exit status of the process.
    pub fn number(&self) -> u8
        ensures { result ≡ number_of self.now }
    {
        match self {
            Status::Done => 0,
            Status::Usage => 1,
            Status::Elf(_) => 2,
            Status::Schedule(_) => 3,
            Status::Settings(_) => 4,
            Status::Trace(_) | Status::NoPcs | Status::Filtered | Status::TooWide => 5,
            Status::State(_) => 6,
            Status::ReadFault => 7,
            Status::WriteFault => 8,
            Status::NoMemory => 9,
            Status::Budget => 10,
            Status::Deadlock => 11,
            Status::Trapped => 12,
            Status::Place(_) => 13,
            Status::Table(_) | Status::Occupied(_) | Status::Far(_) => 14,
        }
    }
}

impl From<NoMemory> for Status {
    ghost use Rattle.command_io.specs.declared.status.Status.TheVariants as status;

    ghost from_gives = { λ _ s. s ≡ status.NoMemory };

    fn from(_: NoMemory) -> Self {
        Status::NoMemory
    }
}

impl From<ElfFault> for Status {
    ghost use Rattle.command_io.specs.declared.status.Status.TheVariants as status;

    ghost from_gives = { λ fault s. s ≡ status.Elf fault };

    fn from(fault: ElfFault) -> Self {
        Status::Elf(fault)
    }
}

impl From<PlaceFault> for Status {
    ghost use Rattle.command_io.specs.Statuses.{status_of_placing};

    ghost from_gives = { λ fault s. s ≡ status_of_placing fault };

    fn from(fault: PlaceFault) -> Self {
        match fault {
            PlaceFault::Refused(fault) => Status::Elf(fault),
            PlaceFault::NoMemory => Status::NoMemory,
        }
    }
}

impl From<PlaceRefusal> for Status {
    ghost use Rattle.command_io.specs.declared.status.Status.TheVariants as status;

    ghost from_gives = { λ refusal s. s ≡ status.Place refusal };

    fn from(refusal: PlaceRefusal) -> Self {
        Status::Place(refusal)
    }
}

impl From<TableFault> for Status {
    ghost use Rattle.command_io.specs.Statuses.{status_of_table};

    ghost from_gives = { λ fault s. s ≡ status_of_table fault };

    fn from(fault: TableFault) -> Self {
        match fault {
            TableFault::NoMemory => Status::NoMemory,
            fault => Status::Table(fault),
        }
    }
}

impl From<ScheduleFault> for Status {
    ghost use Rattle.command_io.specs.Statuses.{status_of_schedule};

    ghost from_gives = { λ fault s. s ≡ status_of_schedule fault };

    fn from(fault: ScheduleFault) -> Self {
        match fault {
            ScheduleFault::NoMemory => Status::NoMemory,
            fault => Status::Schedule(fault),
        }
    }
}

impl From<SettingsFault> for Status {
    ghost use Rattle.command_io.specs.Statuses.{status_of_settings};

    ghost from_gives = { λ fault s. s ≡ status_of_settings fault };

    fn from(fault: SettingsFault) -> Self {
        match fault {
            SettingsFault::NoMemory => Status::NoMemory,
            fault => Status::Settings(fault),
        }
    }
}

impl From<ResumeFault> for Status {
    ghost use Rattle.command_io.specs.Statuses.{status_of_resume};

    ghost from_gives = { λ fault s. s ≡ status_of_resume fault };

    fn from(fault: ResumeFault) -> Self {
        match fault {
            ResumeFault::BadState(place) => Status::State(StateFault::BadState(place)),
            ResumeFault::NoMemory => Status::NoMemory,
        }
    }
}

impl From<TraceFault> for Status {
    ghost use Rattle.command_io.specs.Statuses.{status_of_trace};

    ghost from_gives = { λ fault s. s ≡ status_of_trace fault };

    fn from(fault: TraceFault) -> Self {
        match fault {
            TraceFault::NoMemory => Status::NoMemory,
            fault => Status::Trace(fault),
        }
    }
}

/// An error of a shelf that is written to.
impl From<ShelfError> for Status {
    ghost use Rattle.command_io.specs.Statuses.{status_of_writing};

    ghost from_gives = { λ error s. s ≡ status_of_writing error };

    fn from(error: ShelfError) -> Self {
        match error {
            ShelfError::Failed => Status::WriteFault,
            ShelfError::NoMemory => Status::NoMemory,
        }
    }
}
