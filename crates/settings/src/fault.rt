// Why a settings file is refused.

use crate::key::Key;
use base::Name;

/// Why a settings file is refused, in the order in which faults are judged.
#[derive(PartialEq, Eq, Drop, Debug)]
pub enum SettingsFault {
    /// It has more than 64 KiB.
    TooLong,
    /// It is no TOML, or no UTF-8.
    BadToml,
    /// The least key in byte order that is none of the ten.
    UnknownKey(Name),
    /// The first key, in the order of `Key`, whose value is no whole number that it may have.
    OutOfRange(Key),
    /// The same once the changes are made, of a file that has no fault by itself.
    ChangedOutOfRange(Key),
    /// Memory ran out.
    NoMemory,
}
