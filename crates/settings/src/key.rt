// The keys of a settings file, and the values that each may have.
ghost use Rattle.std.specs.Prelude.{◌≡◌, ◌≤◌, ◌^◌, bytes_eq, IsTrue};

/// A key of a settings file.
#[derive(Clone, Copy, PartialEq, Eq, Debug)]
pub enum Key {
    /// How many harts the guest has, from 1 to 256.
    Harts,
    /// How many bytes of memory, from 64 KiB to 64 MiB, a multiple of 4096.
    Memory,
    /// How many bytes of stack each hart has, from 4 KiB to 1 MiB, a multiple of 4096.
    Stack,
    /// From which write of a line on it is tracked, from 1 to 2^32.
    Tracking,
    /// At each how many writes of a line its pairs are searched, from `tracking` to 2^32.
    Prediction,
    /// From which count on a line is listed, from 1 to 2^40.
    Report,
    /// How many turns in a row a hart has, from 1 to 2^20.
    Quantum,
    /// How many steps a run may take, from 1 to 2^36.
    Budget,
    /// How many bytes a line has where no layout is named: 32, 64, 128 or 256.
    Line,
    /// What the turns after the schedule's list are drawn from, below 2^32; 0 where none is drawn.
    Seed,
}

// What a value may be.
#[derive(Clone, Copy)]
pub(crate) enum Form {
    // A number from a least to a greatest.
    FromTo(u64, u64),
    // Such a number of bytes that is a multiple of 4096.
    Pages(u64, u64),
    // A native line size.
    LineSize,
}

impl Form {
    ghost use Rattle.settings.specs.Keys.{has_form, HasForm};

    // Whether a number has the form.
    pub(crate) fn holds(self, n: u64) -> bool
        ensures value { result ≡ has_form self n }
        ensures fact { IsTrue result → HasForm self n }
    {
        match self {
            Form::FromTo(low, high) => low <= n && n <= high,
            Form::Pages(low, high) => low <= n && n <= high && n % 4096 == 0,
            Form::LineSize => matches!(n, 32 | 64 | 128 | 256),
        }
    }
}

// What the value of a key may be, and what an absent key has.
#[derive(Clone, Copy)]
pub(crate) struct Rule {
    pub(crate) form: Form,
    pub(crate) usual: u64,
}

impl Rule {
    ghost use Rattle.settings.specs.Keys.{rule};

    const fn new(form: Form, usual: u64) -> Rule
        ensures { result ≡ rule form usual }
    {
        Rule { form, usual }
    }
}

impl Key {
    ghost use Rattle.settings.specs.Keys.{keys_in_order, key_name, key_named, rule_of, HasForm};

    // The keys in the order in which they are judged.
    pub(crate) fn all() -> [Key; 10]
        ensures { result ≡ keys_in_order }
    {
        [
            Key::Harts,
            Key::Memory,
            Key::Stack,
            Key::Tracking,
            Key::Prediction,
            Key::Report,
            Key::Quantum,
            Key::Budget,
            Key::Line,
            Key::Seed,
        ]
    }

    /// The key as it is written in the file.
    pub fn name(self) -> &'static str
        ensures { result.now ≡ key_name self }
    {
        match self {
            Key::Harts => "harts",
            Key::Memory => "memory",
            Key::Stack => "stack",
            Key::Tracking => "tracking",
            Key::Prediction => "prediction",
            Key::Report => "report",
            Key::Quantum => "quantum",
            Key::Budget => "budget",
            Key::Line => "line",
            Key::Seed => "seed",
        }
    }

    /// The key that is written so in the file, if one is.
    pub fn named(name: &str) -> Option<Key>
        ensures { result ≡ key_named name.now }
    {
        match name {
            "harts" => Some(Key::Harts),
            "memory" => Some(Key::Memory),
            "stack" => Some(Key::Stack),
            "tracking" => Some(Key::Tracking),
            "prediction" => Some(Key::Prediction),
            "report" => Some(Key::Report),
            "quantum" => Some(Key::Quantum),
            "budget" => Some(Key::Budget),
            "line" => Some(Key::Line),
            "seed" => Some(Key::Seed),
            _ => None,
        }
    }

    // Whether a name is the key's.
    pub(crate) fn is_written(self, name: &str) -> bool
        ensures { result ≡ bytes_eq (key_name self) name.now }
    {
        self.name() == name
    }

    // What its value may be beside a tracking threshold, and its usual value.
    pub(crate) fn rule(self, tracking: u64) -> Rule
        requires { tracking ≤ 2 ^ 32 }
        ensures value { result ≡ rule_of tracking self }
        ensures usual { HasForm result.form result.usual }
    {
        match self {
            Key::Harts => Rule::new(Form::FromTo(1, 256), 8),
            Key::Memory => Rule::new(Form::Pages(1 << 16, 1 << 26), 1 << 24),
            Key::Stack => Rule::new(Form::Pages(1 << 12, 1 << 20), 1 << 16),
            Key::Tracking => Rule::new(Form::FromTo(1, 1 << 32), 16),
            Key::Prediction => Rule::new(Form::FromTo(tracking, 1 << 32), tracking.max(64)),
            Key::Report => Rule::new(Form::FromTo(1, 1 << 40), 100),
            Key::Quantum => Rule::new(Form::FromTo(1, 1 << 20), 100),
            Key::Budget => Rule::new(Form::FromTo(1, 1 << 36), 100_000_000),
            Key::Line => Rule::new(Form::LineSize, 64),
            Key::Seed => Rule::new(Form::FromTo(0, 0xffff_ffff), 0),
        }
    }
}
