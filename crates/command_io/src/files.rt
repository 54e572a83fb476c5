// How a command reads its files, one after another.
ghost use Rattle.std.specs.Prelude.{◌≡◌, ◌<◌, ◌≤◌, ◌^◌, ℕ, List, [], ◌∷◌, Option, None, Some, IfOk};
ghost use Rattle.std.specs.Prelude.{IfErr, OnOk, length};
ghost use Rattle.shelf.specs.Shelf.{content};
ghost use Rattle.command_io.specs.Readings.{IsAccepted, IsJudged, IsReadFrom, IsRefusal};
ghost use Rattle.command_io.specs.Readings.{IsStopped, reading};
ghost use Rattle.command_io.specs.declared.status.Status.{Status as End};

use crate::Status;
use shelf::{FetchError, Shelf, fetch};
use std::alloc::Global;

/// How the content of a file is judged: what it gives, or how it is refused.
pub trait Judge {
    /// What an accepted content gives.
    type Given;

    /// What the judging rests on.
    ghost ready: { Self → Type 0 } = { λ _. Unit {0} };

    /// The most bytes of a content that is not too long.
    ghost most: { Self → ℕ };

    /// How a content is refused, if it is.
    ghost refusal: { Self → List ℕ → Option End };

    /// What is known of what a content gives.
    ghost gives: { Self → List ℕ → Self.Given → Type 0 };

    /// The most bytes of a content that is not too long.
    fn limit(&self) -> u64
        ensures value { result ≡ most self.now }
        ensures small { result < 2 ^ 63 };

    /// How a longer content is refused.
    fn too_long(&self) -> Status
        ensures refused { (bytes : List ℕ) → most self.now < length bytes
            → refusal self.now bytes ≡ Some result }
        ensures kind { IsRefusal result };

    /// Judges a content that is not too long.
    fn judge(&self, alloc: Global, bytes: &[u8]) -> Result<Self::Given, Status>
        requires ready { ready self.now }
        requires short { length bytes.now ≤ most self.now }
        ensures given { IfOk result (gives self.now bytes.now) }
        ensures accepted { OnOk result (refusal self.now bytes.now ≡ None) }
        ensures judged { IfErr result (IsJudged (refusal self.now bytes.now)) };
}

/// Reads and judges the file of a name.
///
/// A fault of reading comes before any refusal of the file, and want of memory may come before
/// both.
pub fn read_judged<S: Shelf, J: Judge>(
    alloc: Global,
    shelf: &mut S,
    name: &str,
    judge: &J,
) -> Result<J::Given, Status>
    requires { J.ready judge.now }
    ensures given { IfOk result (λ given. IsReadFrom (S.outside shelf.new).held name.now
        (λ bytes. J.gives judge.now bytes given)) }
    ensures accepted { OnOk result (IsAccepted (reading name.now
        (λ files. J.refusal judge.now (content files name.now)) ∷ [])
        (S.outside shelf.old) (S.outside shelf.new)) }
    ensures stopped { IfErr result (IsStopped (reading name.now
        (λ files. J.refusal judge.now (content files name.now)) ∷ [])
        (S.outside shelf.old) (S.outside shelf.new)) }
{
    match fetch(alloc, shelf, name, judge.limit()) {
        Ok(bytes) => judge.judge(alloc, &bytes),
        Err(FetchError::TooLong) => Err(judge.too_long()),
        Err(FetchError::ReadFault) => Err(Status::ReadFault),
        Err(FetchError::NoMemory) => Err(Status::NoMemory),
    }
}
