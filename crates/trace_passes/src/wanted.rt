// What a caller wants of a trace, and how one is refused.
ghost use Rattle.std.specs.Prelude.{◌≡◌, ◌^◌, nat_le};
ghost use Rattle.std.specs.Option.{option_or};
ghost use Rattle.trace_passes.specs.Passes.{first_refusal, harts_refusal, header_refusal};
ghost use Rattle.trace_passes.specs.Passes.{near_refusal, version_refusal};

use trace_format::{Header, TraceFault, Version};

/// What a caller wants of a trace: of its header, None where it takes any, and of its accesses.
#[derive(Clone, Copy, PartialEq, Eq, Debug)]
pub struct Wanted {
    /// How many harts there are.
    pub harts: Option<u16>,
    /// The position of the first access.
    pub first: Option<u64>,
    /// Whether each access has its pc, as versions 3 and 4 alone have it; `false` takes any version.
    pub pcs: bool,
    /// How many bytes the regions of a filtered trace must have, as the lines that are counted have
    /// them; None takes no filtered trace.
    pub lines: Option<u32>,
}

/// Why a trace is not taken.
#[derive(Clone, Copy, PartialEq, Eq, Debug)]
pub enum Refusal {
    /// It is no trace.
    Trace(TraceFault),
    /// Pcs are wanted, and its first 8 bytes are the magic of version 1 or 2, which have none.
    NoPcs,
    /// It is filtered, and no filtered trace is wanted.
    Filtered,
    /// It is filtered, and the lines have more bytes than its regions.
    TooWide,
    /// Its header has another number of harts than is wanted.
    Harts,
    /// Its header has another first position than is wanted.
    Position {
        /// The position that is wanted.
        saved: u64,
        /// The position that the header has.
        first: u64,
    },
}

// Whether regions of 2^near bytes have at least so many.
#[tactic(auto, using(std::proofs::lemmas::Bool::Decides::nat_tests))]
fn is_within(size: u32, near: u16) -> bool
    ensures { result ≡ nat_le size (2 ^ near) }
{
    if near >= 32 {
        return true;
    }
    u64::from(size) <= 1u64 << near
}

// How a header is refused for its regions, if it is.
#[tactic(auto, using(std::proofs::lemmas::Bool::Decides::nat_tests))]
fn near_refusal(lines: Option<u32>, near: u16) -> Option<Refusal>
    ensures { result ≡ near_refusal lines near }
{
    if near == 0 {
        return None;
    }
    match lines {
        None => Some(Refusal::Filtered),
        Some(size) if is_within(size, near) => None,
        Some(_) => Some(Refusal::TooWide),
    }
}

impl Wanted {
    // How a front of a trace is refused, if it is: for the version that its magic names, then for
    // its header.
    pub(crate) fn refusal(&self, magic: Option<Version>, header: Option<Header>) -> Option<Refusal>
        ensures { result ≡ option_or (version_refusal self.now.pcs magic)
            (header_refusal self.now header) }
    {
        match magic {
            Some(Version::One | Version::Two) if self.pcs => Some(Refusal::NoPcs),
            _ => self.refusal_of_header(header),
        }
    }

    // How a header is refused, if it is; one that isn't accepted yet is not.
    pub(crate) fn refusal_of_header(&self, header: Option<Header>) -> Option<Refusal>
        ensures { result ≡ header_refusal self.now header }
    {
        let Some(header) = header else {
            return None;
        };
        match near_refusal(self.lines, header.near) {
            Some(refusal) => Some(refusal),
            None => self.refusal_of_fields(header),
        }
    }

    fn refusal_of_fields(&self, header: Header) -> Option<Refusal>
        ensures { result ≡ option_or (harts_refusal self.now.harts header.harts)
            (first_refusal self.now.first header.first) }
    {
        match self.harts {
            Some(harts) if header.harts != harts => Some(Refusal::Harts),
            _ => self.refusal_of_first(header.first),
        }
    }

    fn refusal_of_first(&self, first: u64) -> Option<Refusal>
        ensures { result ≡ first_refusal self.now.first first }
    {
        match self.first {
            Some(saved) if first != saved => Some(Refusal::Position { saved, first }),
            _ => None,
        }
    }
}
