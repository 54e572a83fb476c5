// The settings.
ghost use Rattle.std.specs.Prelude.{◌≡◌};

/// The settings of a run and of its report. Each value is one that its `Key` may have.
#[derive(Clone, Copy, PartialEq, Eq, Debug)]
pub struct Settings {
    /// How many harts the guest has.
    pub harts: u16,
    /// How many bytes of memory the guest has.
    pub memory: u32,
    /// How many bytes of stack each hart has.
    pub stack: u32,
    /// From which write of a line on it is tracked.
    pub tracking: u64,
    /// At each how many writes of a line its pairs are searched.
    pub prediction: u64,
    /// From which count on a tracked line is listed.
    pub report: u64,
    /// How many turns in a row a hart has.
    pub quantum: u32,
    /// How many steps a run may take.
    pub budget: u64,
    /// How many bytes a line has where no layout is named: the native line size.
    pub line: u32,
    /// What the turns after the schedule's list are drawn from: 0 where none is drawn.
    pub seed: u32,
}

impl Settings {
    /// The native line size: how many bytes a line has where no layout is named.
    pub fn line(&self) -> u32
        ensures { result ≡ self.now.line }
    {
        self.line
    }
}
