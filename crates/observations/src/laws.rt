// Laws of what was seen, for whoever reads contracts alone.
ghost use Rattle.std.specs.Prelude.{◌≡◌, ◌≤◌, ◌++◌, ◌∷◌, [], List, length};
ghost use Rattle.std.specs.List.{All};
ghost use Rattle.base.specs.Levels.{Levels};
ghost use Rattle.base.specs.Lines.{Grid};
ghost use Rattle.base.specs.declared.ending.Ending.{Ending as End};
ghost use Rattle.objects.specs.Blocks.{NoTwoLive};
ghost use Rattle.objects.specs.Symbols.{NoTwoAlike};
ghost use Rattle.sharing_rules.specs.AccessLists.{AccessList};
ghost use Rattle.detector.specs.Standing.{StandsFor};
ghost use Rattle.report.specs.OfLists.{report_of};
ghost use Rattle.trace_format.specs.Rules.{touches_in};
ghost use Rattle.trace_format.specs.declared.record.TraceEnd.{TraceEnd};
ghost use Rattle.trace_format.specs.declared.record.TraceRecord.{TraceRecord as Record};
ghost use Rattle.trace_format.specs.declared.record.TraceRecord.TheVariants as records;
ghost use Rattle.trace_passes.specs.Lives.{objects_after, objects_of};
ghost use Rattle.observations.specs.Origins.{IsBlockOf, IsSymbolOf};
ghost use Rattle.observations.specs.Seen.{HasSeen, IsNotable, report_of_records};
ghost use Rattle.observations.specs.ObservedTraces.{ObservedTrace, report_of_observed};
ghost use Rattle.observations.specs.ObservedTraces.{observed_after};

use detector::an_access_changes_what_it_meets;

/// The end record of a trace shows nothing. Nothing is done.
pub fn an_end_shows_nothing()
    ensures seen { (begun now : ObservedTrace) (items : List Record) (e : TraceEnd)
        → HasSeen begun now (items ++ records.End e ∷ []) → HasSeen begun now items }
    ensures report { (ending : End) (e : TraceEnd) (g : Grid) (v : Levels) (items : List Record)
        → report_of_records ending g v (items ++ records.End e ∷ [])
        ≡ report_of_records ending g v items }
{}

/// Records that are noted one after the other are seen, whatever was seen before them; and what
/// stands for a list of accesses has the report of the list. Nothing is done.
pub fn what_is_noted_is_seen()
    ensures seen { (begun : ObservedTrace) (items : List Record) → IsNotable begun
        → HasSeen begun (observed_after begun items) items }
    ensures report { (ending : End) (s : ObservedTrace) (t : AccessList) → IsNotable s
        → StandsFor t s.watch → report_of_observed ending s
        ≡ report_of ending s.watch.grid s.watch.levels s.objects t }
    // the objects of a list go on to those of a longer one
    ensures objects { (before items : List Record)
        → objects_after (objects_of before) (length (touches_in before)) items
        ≡ objects_of (before ++ items) }
    // no two symbols of a list are alike
    ensures apart { (items : List Record) → NoTwoAlike (objects_of items).symbols }
{
    an_access_changes_what_it_meets();
}

/// What stands in memory after a list of records came of them. Nothing is done.
pub fn what_stands_was_noted()
    // no two blocks live at one address
    ensures lone { (items : List Record) → NoTwoLive (objects_of items).blocks }
    // each was made by one of the records, and has its life within the list
    ensures lives { (items : List Record) → All (IsBlockOf items) (objects_of items).blocks }
    // each symbol comes from one of them
    ensures symbols { (items : List Record) → All (IsSymbolOf items) (objects_of items).symbols }
    // there are no more of either than records
    ensures few_blocks { (items : List Record) → length (objects_of items).blocks ≤ length items }
    ensures few_symbols { (items : List Record)
        → length (objects_of items).symbols ≤ length items }
{}
