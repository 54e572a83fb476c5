// Where the records of a trace go.
ghost use Rattle.std.specs.Prelude.{◌≡◌, ◌++◌, ◌∷◌, List, [], OnOk, IfErr};
ghost use Rattle.shelf.specs.Shelf.{Outside};
ghost use Rattle.shelf.specs.Files.{Output, AreCut};
ghost use Rattle.shelf.specs.OneFile.{Waiting};
ghost use Rattle.shelf.specs.OnTheirWay.{IsOutputs};
ghost use Rattle.trace_format.specs.declared.record.TraceRecord.{TraceRecord as Record};
ghost use Rattle.trace_format.specs.Rules.{IsWritable};
ghost use Rattle.trace_files.specs.Copying.{IsUnderWay};

use shelf::{Shelf, ShelfError};
use trace_format::TraceRecord;

/// Gets the records of a trace, one after the other, and has them on their way to its files.
pub(crate) trait Target {
    // What waits for its files.
    ghost waiting: { Self → List Waiting };

    // All that was put into its files once these records came.
    ghost files: { Self → List Record → List Output };

    // That these records came so far.
    ghost has: { Self → List Record → Type 0 };

    // Gets one record more.
    fn put<S: Shelf>(&mut self, shelf: &mut S, item: &TraceRecord) -> Result<(), ShelfError>
        requires writable { IsWritable item.now }
        requires way { IsUnderWay (waiting self.old) (files self.old) (has self.old)
            (S.outside shelf.old) }
        ensures files { files self.new ≡ files self.old }
        ensures has { OnOk result ((seen : List Record) → has self.old seen
            → has self.new (seen ++ item.now ∷ [])) }
        ensures outputs { OnOk result ((seen : List Record) (before : Outside) → has self.old seen
            → IsOutputs (waiting self.old) (files self.old seen) before (S.outside shelf.old)
            → IsOutputs (waiting self.new) (files self.old (seen ++ item.now ∷ [])) before
            (S.outside shelf.new)) }
        ensures cut { IfErr result (λ error. (seen : List Record) (before : Outside)
            → has self.old seen
            → IsOutputs (waiting self.old) (files self.old seen) before (S.outside shelf.old)
            → AreCut (files self.old (seen ++ item.now ∷ [])) before
            (S.outside shelf.new) error) }
        ensures keeps_held { (S.outside shelf.new).held ≡ (S.outside shelf.old).held }
        ensures gives { (S.outside shelf.new).given ≡ (S.outside shelf.old).given };
}
