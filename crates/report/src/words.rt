// The names that stand in a report.
ghost use Rattle.std.specs.Prelude.{◌≡◌};
ghost use Rattle.report.specs.Lines.{cause_word, kind_word, verdict_word};

use base::Cause;
use sharing_rules::{LineKind, Verdict};

/// Why an instruction could not be carried out.
pub fn cause_name(cause: Cause) -> &'static str
    ensures { result.now ≡ cause_word cause }
{
    match cause {
        Cause::Illegal => "illegal",
        Cause::Breakpoint => "breakpoint",
        Cause::FetchMisaligned => "fetch-misaligned",
        Cause::FetchOutside => "fetch-outside",
        Cause::LoadMisaligned => "load-misaligned",
        Cause::LoadOutside => "load-outside",
        Cause::StoreMisaligned => "store-misaligned",
        Cause::StoreOutside => "store-outside",
    }
}

/// How a line came to be tracked.
pub fn kind_name(kind: LineKind) -> &'static str
    ensures { result.now ≡ kind_word kind }
{
    match kind {
        LineKind::Observed => "observed",
        LineKind::Shifted => "shifted",
        LineKind::Doubled => "doubled",
    }
}

/// What the sharing of a line is.
pub fn verdict_name(verdict: Verdict) -> &'static str
    ensures { result.now ≡ verdict_word verdict }
{
    match verdict {
        Verdict::FalseSharing => "false",
        Verdict::TrueSharing => "true",
        Verdict::Mixed => "mixed",
    }
}
