// What an access is spelled against.
ghost use Rattle.std.specs.Prelude.{◌≡◌, replicate};
ghost use Rattle.trace_format.specs.Spelling.{before_after, no_pcs, nothing_before, pc_before};
ghost use Rattle.trace_format.specs.Spelling.{pc_or_zero};

use crate::TraceRecord;
use base::{Access, Hart};

/// What an access is spelled against.
#[derive(Clone, Copy, Debug)]
pub struct Before {
    /// The address of the access before, 0 before the first.
    pub last: u32,
    /// The pc of each hart's access before, 0 before its first.
    pub pcs: [u32; 256],
}

fn zeros<const N: usize>() -> [u32; N]
    ensures { result ≡ replicate N 0 }
{
    [0; N]
}

#[tactic(auto, unfolding(crate::specs::Spelling::no_pcs))]
fn no_pcs() -> [u32; 256]
    ensures { result ≡ no_pcs }
{
    zeros()
}

/// The pc that is stated where there is one, and 0.
#[inline(always)]
pub(crate) fn pc_or_zero(pc: Option<u32>) -> u32
    ensures { result ≡ pc_or_zero pc }
{
    match pc {
        Some(pc) => pc,
        None => 0,
    }
}

impl Before {
    /// What the first access is spelled against.
    pub fn nothing() -> Before
        ensures { result ≡ nothing_before }
    {
        Before {
            last: 0,
            pcs: no_pcs(),
        }
    }

    /// The pc of a hart's access before.
    #[inline(always)]
    pub fn pc(&self, hart: Hart) -> u32
        ensures { result ≡ pc_before self.now hart }
    {
        self.pcs[usize::from(hart.number())]
    }

    /// The next access is spelled against this one.
    #[inline(always)]
    pub fn note(&mut self, access: Access, pc: Option<u32>)
        ensures { self.new ≡ before_after self.old (TraceRecord.Touch access pc) }
    {
        self.last = access.addr();
        self.pcs[usize::from(access.hart().number())] = pc_or_zero(pc);
    }
}
