// What a run never changes.
ghost use Rattle.std.specs.Prelude.{◌≡◌};
ghost use Rattle.guest.specs.Configs.{stack_end};

use base::Hart;

/// How a guest is run.
#[derive(Clone, Copy, Debug)]
pub struct RunSettings {
    /// How many harts there are: 1 to 256.
    pub harts: u16,
    /// How many turns in a row a hart has after the schedule's list: 1 to 2^20.
    pub quantum: u32,
    /// How many steps the run may take: 1 to 2^36.
    pub budget: u64,
}

/// What a run never changes.
#[derive(Clone, Copy, Debug)]
pub struct Setup {
    /// How many harts there are.
    pub harts: u16,
    /// How many steps the run may take.
    pub budget: u64,
    /// Where the memory ends.
    pub top: u32,
    /// Bytes of each hart's stack.
    pub stack: u32,
}

impl Setup {
    /// Where a hart's stack ends.
    pub fn stack_end(&self, hart: Hart) -> u32
        ensures { result ≡ stack_end self.now hart }
    {
        let below = u64::from(hart.number()) * u64::from(self.stack);
        u64::from(self.top).saturating_sub(below) as u32
    }
}
