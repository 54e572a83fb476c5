//! The settings file: TOML with ten keys at its root, all optional, each a whole number in a range
//! or of a list.
//!
//! A key that is absent has its usual value. A file is read once and untyped, by `toml`, and
//! refused with its first fault. `Changes` stand in the place of what it gives for their keys.
#![tactic(auto)]

mod changes;
mod fault;
mod key;
mod read;
mod values;

pub use changes::Changes;
pub use fault::SettingsFault;
pub use key::Key;
pub use values::Settings;
