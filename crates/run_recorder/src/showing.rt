// What the shelf is given to show of a run.
ghost use Rattle.std.specs.Prelude.{◌≡◌, None, false, IsTrue, MatchOption};
ghost use Rattle.run_recorder.specs.Showing.{bad_code, has_output, ShowsCode, ShowsOutput};

use crate::run_file::{Content, RunFile};
use base::{Ending, Outcome};
use shelf::RunShown;

// Whether a file gets what the guest puts out.
fn has_output(files: &[RunFile<'_>]) -> bool
    ensures { result ≡ has_output files.now }
{
    files
        .iter()
        .any(|file| matches!(file.content, Content::Output))
}

// Bytes that the guest puts out, where no file gets them.
pub(crate) fn output_to_show<'b>(files: &[RunFile<'_>], bytes: &'b [u8]) -> Option<RunShown<'b>>
    ensures { MatchOption result (IsTrue (has_output files.now))
        (λ shown. (has_output files.now ≡ false) × ShowsOutput bytes.now shown) }
{
    if has_output(files) {
        return None;
    }
    Some(RunShown::Output(bytes))
}

// The exit code of a run, where it isn't 0.
pub(crate) fn code_to_show<'b>(ending: Option<Ending>) -> Option<RunShown<'b>>
    ensures { MatchOption result (bad_code ending ≡ None) (ShowsCode (bad_code ending)) }
{
    match ending?.outcome {
        Outcome::Exit(code) if code != 0 => Some(RunShown::ExitCode(code)),
        _ => None,
    }
}
