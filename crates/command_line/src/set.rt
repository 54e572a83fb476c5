// The changes of settings that an option names.
ghost use Rattle.std.specs.Prelude.{◌≡◌, ◌==◌, ◌<◌, [], ◌∷◌, IfSome, length};
ghost use Rattle.std.specs.List.{slice_split};
ghost use Rattle.std.specs.Option.{option_map_or};
ghost use Rattle.std.specs.Result.{result_ok};
ghost use Rattle.command_line.specs.Demands.{text_of};
ghost use Rattle.command_line.specs.Set.{and_change, and_part, and_parts, and_words, changes_of};

use crate::layout::number;
use crate::reason::{Reason, WrongChange};
use settings::{Changes, Key};

// One change more, of a key that no other changes.
fn with_change(changes: Changes, key: Key, number: u64) -> Result<Changes, WrongChange>
    ensures { result_ok result ≡ and_change changes key number }
{
    match changes.of(key) {
        Some(_) => Err(WrongChange::Again),
        None => Ok(changes.with(key, number)),
    }
}

// The same of the words for the key and for the number.
fn with_words(changes: Changes, name: &str, digits: &str) -> Result<Changes, WrongChange>
    ensures { result_ok result ≡ and_words changes name.now digits.now }
{
    let Some(key) = Key::named(name) else {
        return Err(WrongChange::Key);
    };
    let Some(number) = number(digits) else {
        return Err(WrongChange::Number);
    };
    with_change(changes, key, number)
}

// The same of KEY=N.
fn with_part(changes: Changes, part: &str) -> Result<Changes, WrongChange>
    ensures { result_ok result ≡ and_part changes part.now }
{
    match part.split_once('=') {
        Some((name, digits)) => with_words(changes, name, digits),
        None => Err(WrongChange::Form),
    }
}

// The same, and why else the words are refused.
fn with_named<'a>(changes: Changes, part: &'a str) -> Result<Changes, Reason<'a>>
    ensures { result_ok result ≡ and_part changes part.now }
{
    match with_part(changes, part) {
        Ok(changes) => Ok(changes),
        Err(wrong) => Err(Reason::Change { part, wrong }),
    }
}

// What stands before the first comma of a text, and what stands behind it.
fn cut(text: &str) -> (&str, Option<&str>)
    ensures shorter { IfSome result.1 (λ rest. length rest.now < length text.now) }
    ensures split { slice_split (λ b. b == 44) text.now
        ≡ result.0.now ∷ option_map_or (λ rest. slice_split (λ b. b == 44) rest.now) result.1 [] }
{
    match text.split_once(',') {
        Some((part, rest)) => (part, Some(rest)),
        None => (text, None),
    }
}

// The changes, with those of each part of a text.
fn with_parts<'a>(changes: Changes, text: &'a str) -> Result<Changes, Reason<'a>>
    ensures { result_ok result ≡ and_parts changes (slice_split (λ b. b == 44) text.now) }
{
    let (part, rest) = cut(text);
    match with_named(changes, part) {
        Ok(more) => match rest {
            Some(rest) => with_parts(more, rest),
            None => Ok(more),
        },
        Err(reason) => Err(reason),
    }
}

// The changes that a text names, or the first part that names none.
fn read_changes(text: &str) -> Result<Changes, Reason<'_>>
    ensures { result_ok result ≡ changes_of text.now }
{
    with_parts(Changes::none(), text)
}

// The changes that the option is given, none where it isn't given: None where it is given others.
pub fn given_changes(word: Option<&str>) -> Option<Changes>
    ensures { result ≡ Rattle.command_line.specs.Set.given_changes (text_of word.entry) }
{
    match word {
        Some(text) => read_changes(text).ok(),
        None => Some(Changes::none()),
    }
}

// Why the option names no changes, unless it names some or isn't given.
pub fn wrong_changes(word: Option<&str>) -> Option<Reason<'_>> {
    read_changes(word?).err()
}
