// The faults of a settings file: what each is called, and what is said of it.
ghost use Rattle.std.specs.Prelude.{◌≡◌, IfOk, string_bytes};
ghost use Rattle.command_io.specs.Faults.{settings_text};

use base::printed_name;
use settings::{Key, SettingsFault};
use std::alloc::{AllocError, Global};

const LINES: &str = "write a key and a whole number on each line, like `quantum = 1`";

const KEYS: &str = concat!(
    "the keys are harts, memory, stack, tracking, prediction, report, quantum, budget, line, ",
    "seed",
);

// What a fault of the settings is called.
pub fn settings_name(alloc: Global, fault: &SettingsFault) -> Result<String, AllocError>
    ensures { IfOk result (λ text. string_bytes text ≡ settings_text fault.now) }
{
    match fault {
        SettingsFault::TooLong => String::from_str(alloc, "TooLong"),
        SettingsFault::BadToml => String::from_str(alloc, "BadToml"),
        SettingsFault::UnknownKey(name) => {
            let name = printed_name(alloc, name.bytes())?;
            format!(in alloc; "UnknownKey {name}")
        }
        SettingsFault::OutOfRange(key) | SettingsFault::ChangedOutOfRange(key) => {
            let name = key.name();
            format!(in alloc; "OutOfRange {name}")
        }
        SettingsFault::NoMemory => String::from_str(alloc, "NoMemory"),
    }
}

fn range_of(key: Key) -> &'static str {
    match key {
        Key::Harts => "`harts` must be a whole number from 1 to 256",
        Key::Memory => "`memory` must be a multiple of 4096 from 65536 to 67108864",
        Key::Stack => "`stack` must be a multiple of 4096 from 4096 to 1048576",
        Key::Tracking => "`tracking` must be a whole number from 1 to 4294967296",
        Key::Prediction => "`prediction` must be a whole number from `tracking` to 4294967296",
        Key::Report => "`report` must be a whole number from 1 to 1099511627776",
        Key::Quantum => "`quantum` must be a whole number from 1 to 1048576",
        Key::Budget => "`budget` must be a whole number from 1 to 68719476736",
        Key::Line => "`line` must be 32, 64, 128 or 256",
        Key::Seed => "`seed` must be a whole number from 0 to 4294967295",
    }
}

// What is no TOML in a content, and in which line, where it is none.
fn place_in(alloc: Global, content: &[u8]) -> Result<Option<String>, AllocError> {
    let Err(error) = toml::table_from_slice(alloc, content) else {
        return Ok(None);
    };
    let Some(span) = error.span() else {
        return Err(AllocError);
    };
    let mut line: usize = 1;
    for byte in content.iter().take(span.start) {
        if *byte == b'\n' {
            line = line.saturating_add(1);
        }
    }
    let what = error.message();
    Ok(Some(format!(in alloc; "line {line}: {what}")?))
}

fn toml_advice(alloc: Global, content: &[u8]) -> Result<String, AllocError> {
    match place_in(alloc, content)? {
        Some(place) => format!(in alloc; "{place}: {LINES}"),
        None => format!(in alloc; "the file is not TOML: {LINES}"),
    }
}

/// What is wrong with settings that are refused, and what to do about it. `content` is that of
/// their file, where it was looked at again.
pub fn settings_advice(
    alloc: Global,
    fault: &SettingsFault,
    content: &[u8],
) -> Result<String, AllocError> {
    match fault {
        SettingsFault::TooLong => String::from_str(
            alloc,
            "the settings file is larger than 64 KiB: shorten it",
        ),
        SettingsFault::BadToml => toml_advice(alloc, content),
        SettingsFault::UnknownKey(name) => {
            let name = printed_name(alloc, name.bytes())?;
            format!(in alloc; "`{name}` is not a key: {KEYS}")
        }
        SettingsFault::OutOfRange(key) | SettingsFault::ChangedOutOfRange(key) => {
            String::from_str(alloc, range_of(*key))
        }
        SettingsFault::NoMemory => Err(AllocError),
    }
}
