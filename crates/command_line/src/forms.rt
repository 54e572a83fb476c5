// Commands and arguments as all of them are, and what `clap` makes of the words of one.
ghost use Rattle.std.specs.Prelude.{◌≡◌, ◌≢◌, IfOk, IfErr, List, [], None, Option, Some, true};
ghost use Rattle.clap.specs.Words.{App, Row, Text};
ghost use Rattle.clap.specs.Words.{app_of, fault_of, first_of, found_of, is_simple_and_free};
ghost use Rattle.clap.specs.Words.{matches_of, rows_of};
ghost use Rattle.command_line.specs.Apps.{form_app, plain_app, with_flag, with_option};
ghost use Rattle.command_line.specs.Apps.{with_options, with_word, with_words};
ghost use Rattle.command_line.specs.Asked.{asked, is_flagged};
ghost use Rattle.command_line.specs.Demands.{names_of, text_of, texts, UnlessMemory};
ghost use Rattle.command_line.specs.Words.{Demand as Ask, IsBounded, meaning};

use crate::demand::{Demand, WordsFault};
use crate::reason::Reason;
use clap::error::ErrorKind;
use clap::{Arg, ArgAction, ArgMatches, Command};
use std::alloc::{AllocError, Global};

// A command without arguments. `--help` is a word like any other.
fn plain_command<'a>(alloc: Global, name: &'a str) -> Command<'a>
    ensures { app_of result ≡ plain_app name.entry.now }
{
    Command::new(alloc, name).disable_help_flag(true)
}

// The command with a positional word more that has to be there.
fn with_word<'a>(
    alloc: Global,
    command: Command<'a>,
    name: &'a str,
) -> Result<Command<'a>, AllocError>
    ensures { IfOk result (λ added. app_of added
        ≡ with_word (app_of command.entry) name.entry.now) }
{
    command.arg(Arg::new(alloc, name).required(true))
}

// The command with `--name value` more.
fn with_option<'a>(
    alloc: Global,
    command: Command<'a>,
    name: &'a str,
) -> Result<Command<'a>, AllocError>
    ensures { IfOk result (λ added. app_of added
        ≡ with_option (app_of command.entry) name.entry.now) }
{
    command.arg(Arg::new(alloc, name).long(name))
}

// The command with the flag `--name` more.
fn with_flag<'a>(
    alloc: Global,
    command: Command<'a>,
    name: &'a str,
) -> Result<Command<'a>, AllocError>
    ensures { IfOk result (λ added. app_of added
        ≡ with_flag (app_of command.entry) name.entry.now) }
{
    command.arg(Arg::new(alloc, name).long(name).action(ArgAction::SetTrue))
}

// The command with each of these positional words more.
fn with_words<'a>(
    alloc: Global,
    command: Command<'a>,
    names: &[&'a str],
) -> Result<Command<'a>, AllocError>
    ensures { IfOk result (λ added. app_of added
        ≡ with_words (app_of command.entry) (names_of names.now)) }
{
    let mut added = command;
    for name in names {
        added = with_word(alloc, added, name)?;
    }
    Ok(added)
}

// The command with each of these options more.
fn with_options<'a>(
    alloc: Global,
    command: Command<'a>,
    names: &[&'a str],
) -> Result<Command<'a>, AllocError>
    ensures { IfOk result (λ added. app_of added
        ≡ with_options (app_of command.entry) (names_of names.now)) }
{
    let mut added = command;
    for name in names {
        added = with_option(alloc, added, name)?;
    }
    Ok(added)
}

// The command of a name, of positional words, and of options.
fn form_command<'a>(
    alloc: Global,
    name: &'a str,
    positional: &[&'a str],
    options: &[&'a str],
) -> Result<Command<'a>, AllocError>
    ensures { IfOk result (λ command. app_of command
        ≡ form_app name.entry.now (names_of positional.now) (names_of options.now)) }
{
    let plain = plain_command(alloc, name);
    let worded = with_words(alloc, plain, positional)?;
    with_options(alloc, worded, options)
}

// What `clap` makes of the words for a command.
fn matches_by<'a>(
    command: Command<'a>,
    words: &'a [String],
) -> Result<ArgMatches<'a>, WordsFault<'a>>
    requires { is_simple_and_free (app_of command) ≡ true }
    ensures taken { IfOk result (λ matches. fault_of (app_of command.entry) (texts words.now)
        ≡ []) }
    ensures rows { IfOk result (λ matches. rows_of (found_of matches)
        ≡ matches_of (app_of command.entry) (texts words.now)) }
    ensures refused { IfErr result (λ fault. UnlessMemory fault (fault_of (app_of command.entry)
        (texts words.now) ≢ [])) }
{
    match command.try_get_matches_from(words) {
        Ok(matches) => Ok(matches),
        Err(error) => {
            if error.kind() == ErrorKind::OutOfMemory {
                Err(WordsFault::NoMemory)
            } else {
                Err(WordsFault::Usage(Reason::Words(error)))
            }
        }
    }
}

// The values that a command of a name, of positional words and of options finds in the words for
// its arguments, the command's own name first.
pub fn matches_of<'a>(
    alloc: Global,
    name: &'a str,
    positional: &[&'a str],
    options: &[&'a str],
    words: &'a [String],
) -> Result<ArgMatches<'a>, WordsFault<'a>>
    requires { is_simple_and_free (form_app name.now (names_of positional.now)
        (names_of options.now)) ≡ true }
    ensures taken { IfOk result (λ matches. fault_of (form_app name.entry.now
        (names_of positional.now) (names_of options.now)) (texts words.now) ≡ []) }
    ensures rows { IfOk result (λ matches. rows_of (found_of matches)
        ≡ matches_of (form_app name.entry.now (names_of positional.now) (names_of options.now))
        (texts words.now)) }
    ensures refused { IfErr result (λ fault. UnlessMemory fault (fault_of (form_app name.entry.now
        (names_of positional.now) (names_of options.now)) (texts words.now) ≢ [])) }
{
    let command = form_command(alloc, name, positional, options)?;
    matches_by(command, words)
}

// The same of a command that has a flag more.
pub fn matches_with_flag<'a>(
    alloc: Global,
    name: &'a str,
    positional: &[&'a str],
    options: &[&'a str],
    flag: &'a str,
    words: &'a [String],
) -> Result<ArgMatches<'a>, WordsFault<'a>>
    requires { is_simple_and_free (with_flag (form_app name.now (names_of positional.now)
        (names_of options.now)) flag.now) ≡ true }
    ensures taken { IfOk result (λ matches. fault_of (with_flag (form_app name.entry.now
        (names_of positional.now) (names_of options.now)) flag.entry.now) (texts words.now) ≡ []) }
    ensures rows { IfOk result (λ matches. rows_of (found_of matches)
        ≡ matches_of (with_flag (form_app name.entry.now (names_of positional.now)
        (names_of options.now)) flag.entry.now) (texts words.now)) }
    ensures refused { IfErr result (λ fault. UnlessMemory fault (fault_of (with_flag
        (form_app name.entry.now (names_of positional.now) (names_of options.now))
        flag.entry.now) (texts words.now) ≢ [])) }
{
    let plain = form_command(alloc, name, positional, options)?;
    let command = with_flag(alloc, plain, flag)?;
    matches_by(command, words)
}

// The value that an argument got, if it got one.
pub fn value_of<'a>(matches: &ArgMatches<'a>, name: &str) -> Option<&'a str>
    ensures { text_of result ≡ first_of name.now (rows_of (found_of matches.now)) }
{
    matches.get_str(name)
}

// Whether a flag is among the words.
pub fn is_set(matches: &ArgMatches<'_>, name: &str) -> bool
    ensures { result ≡ is_flagged name.now (rows_of (found_of matches.now)) }
{
    match value_of(matches, name) {
        Some(value) => value == "true",
        None => false,
    }
}

/// The form of the words of a command: the arguments that it has, and what their values ask for.
pub trait Form {
    /// The command, as `clap` reads its words.
    ghost app: { App };

    /// What the values of its arguments ask for, unless they are refused.
    ghost of: { List Row → Option Ask };

    /// What words ask for, unless they are refused.
    ghost asks: { List Text → Option Ask };

    /// The values of its arguments in the words, the command's own name first.
    fn matches<'a>(alloc: Global, words: &'a [String]) -> Result<ArgMatches<'a>, WordsFault<'a>>
        ensures taken { IfOk result (λ matches. fault_of app (texts words.now) ≡ []) }
        ensures rows { IfOk result (λ matches. rows_of (found_of matches)
            ≡ matches_of app (texts words.now)) }
        ensures refused { IfErr result (λ fault. UnlessMemory fault
            (fault_of app (texts words.now) ≢ [])) };

    /// What such values ask for.
    fn demand<'a>(matches: &ArgMatches<'a>) -> Result<Demand<'a>, WordsFault<'a>>
        ensures accepted { IfOk result (λ demand.
            of (rows_of (found_of matches.now)) ≡ Some (meaning demand)) }
        ensures refused { IfErr result (λ fault. UnlessMemory fault
            (of (rows_of (found_of matches.now)) ≡ None)) }
        ensures bounded { IfOk result IsBounded };

    /// Words ask for what their values ask for, unless `clap` has a fault of them.
    ghost meant: { (words : List Text) → asks words ≡ asked app of words };
}

/// What the words of a command of this form ask for, the command's own name first.
pub fn read<'a, F: Form>(alloc: Global, words: &'a [String]) -> Result<Demand<'a>, WordsFault<'a>>
    ensures accepted { IfOk result (λ demand. F.asks (texts words.now) ≡ Some (meaning demand)) }
    ensures refused { IfErr result (λ fault. UnlessMemory fault
        (F.asks (texts words.now) ≡ None)) }
    ensures bounded { IfOk result IsBounded }
{
    match F::matches(alloc, words) {
        Ok(matches) => F::demand(&matches),
        Err(fault) => Err(fault),
    }
}
