// How the program starts and ends: its words, and its exit status.
ghost use Rattle.std.specs.Prelude.{◌≡◌, IfOk};
ghost use Rattle.std.specs.Process.{exit_status};
ghost use Rattle.std.specs.Vec.Iter.{into_iter_items};
ghost use Rattle.command_io.specs.Arguments.{words_in};
ghost use Rattle.command_io.specs.Numbers.{number_of};

use crate::Status;
use base::NoMemory;
use std::alloc::Global;
use std::env::Args;
use std::io::{self, ErrorKind};
use std::process::ExitCode;

// The words that are left to come.
fn rest_of(alloc: Global, arguments: Args<Global>) -> Result<Vec<String>, NoMemory>
    ensures { IfOk result (λ words. words.items ≡ into_iter_items arguments) }
{
    let mut words = Vec::new(alloc);
    for word in arguments {
        words.push(word)?;
    }
    Ok(words)
}

/// The words after the program's name, of the arguments of the process. Arguments that are no text
/// are no words, and so ask for nothing that the program does.
pub fn words_of(alloc: Global, arguments: io::Result<Args<Global>>) -> Result<Vec<String>, NoMemory>
    ensures { IfOk result (λ words. words.items ≡ words_in arguments) }
{
    match arguments {
        Ok(mut arguments) => {
            let _name = arguments.next();
            rest_of(alloc, arguments)
        }
        Err(error) if error.kind() == ErrorKind::OutOfMemory => Err(NoMemory),
        Err(_) => Ok(Vec::new(alloc)),
    }
}

/// The exit status of the process.
pub fn exit_code(status: &Status) -> ExitCode
    ensures { exit_status result ≡ number_of status.now }
{
    ExitCode::from(status.number())
}
