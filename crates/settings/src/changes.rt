// Numbers in the place of those of a settings file.
ghost use Rattle.std.specs.Prelude.{◌≡◌};

use crate::key::Key;

/// Numbers that stand in the place of those of a settings file, or of the usual ones: one at most
/// for each key, none of them judged.
#[derive(Clone, Copy, PartialEq, Eq, Debug)]
pub struct Changes {
    /// In the place of `harts`.
    pub harts: Option<u64>,
    /// In the place of `memory`.
    pub memory: Option<u64>,
    /// In the place of `stack`.
    pub stack: Option<u64>,
    /// In the place of `tracking`.
    pub tracking: Option<u64>,
    /// In the place of `prediction`.
    pub prediction: Option<u64>,
    /// In the place of `report`.
    pub report: Option<u64>,
    /// In the place of `quantum`.
    pub quantum: Option<u64>,
    /// In the place of `budget`.
    pub budget: Option<u64>,
    /// In the place of `line`.
    pub line: Option<u64>,
    /// In the place of `seed`.
    pub seed: Option<u64>,
}

impl Changes {
    ghost use Rattle.settings.specs.Changed.{change_of, no_changes, with_change};

    /// No number stands in the place of another.
    pub const fn none() -> Changes
        ensures { result ≡ no_changes }
    {
        Changes {
            harts: None,
            memory: None,
            stack: None,
            tracking: None,
            prediction: None,
            report: None,
            quantum: None,
            budget: None,
            line: None,
            seed: None,
        }
    }

    /// The number in the place of a key's, if there is one.
    pub fn of(&self, key: Key) -> Option<u64>
        ensures { result ≡ change_of self.now key }
    {
        match key {
            Key::Harts => self.harts,
            Key::Memory => self.memory,
            Key::Stack => self.stack,
            Key::Tracking => self.tracking,
            Key::Prediction => self.prediction,
            Key::Report => self.report,
            Key::Quantum => self.quantum,
            Key::Budget => self.budget,
            Key::Line => self.line,
            Key::Seed => self.seed,
        }
    }

    /// The changes, with a number in the place of a key's.
    pub fn with(self, key: Key, number: u64) -> Changes
        ensures { result ≡ with_change self key number }
    {
        let number = Some(number);
        match key {
            Key::Harts => Changes {
                harts: number,
                ..self
            },
            Key::Memory => Changes {
                memory: number,
                ..self
            },
            Key::Stack => Changes {
                stack: number,
                ..self
            },
            Key::Tracking => Changes {
                tracking: number,
                ..self
            },
            Key::Prediction => Changes {
                prediction: number,
                ..self
            },
            Key::Report => Changes {
                report: number,
                ..self
            },
            Key::Quantum => Changes {
                quantum: number,
                ..self
            },
            Key::Budget => Changes {
                budget: number,
                ..self
            },
            Key::Line => Changes {
                line: number,
                ..self
            },
            Key::Seed => Changes {
                seed: number,
                ..self
            },
        }
    }
}
