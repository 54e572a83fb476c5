// Laws of the definitions, for whoever reads contracts alone. Each call does nothing.
ghost use Rattle.std.specs.Prelude.{◌≡◌, ℕ, ◌+◌, ◌<◌, ◌≤◌, ◌++◌, ◌∷◌, IsTrue, List, None, Some};
ghost use Rattle.std.specs.Prelude.{if◌then◌else◌, length, slice_get};
ghost use Rattle.base.specs.Levels.{Levels};
ghost use Rattle.base.specs.Lines.{Grid, is_layout};
ghost use Rattle.sharing_rules.specs.Holders.{line_count_since};
ghost use Rattle.sharing_rules.specs.Lines.{Line, is_inside};
ghost use Rattle.sharing_rules.specs.Listed.{Finding, listed};
ghost use Rattle.sharing_rules.specs.Members.{Member};
ghost use Rattle.sharing_rules.specs.Observed.{first_write_from};
ghost use Rattle.sharing_rules.specs.Verdicts.{verdict_of};
ghost use Rattle.sharing_rules.specs.Words.{words_since};
ghost use Rattle.sharing_rules.specs.declared.line_kind.Verdict.TheVariants.{FalseSharing};
ghost use Rattle.invalidations.specs.Blame.{all_invalidations, taken_line};
ghost use Rattle.invalidations.specs.BlameRecords.{sited_in};
ghost use Rattle.invalidations.specs.LineInvalidations.{holds_line, is_held_by, kept_of, two_of};
ghost use Rattle.invalidations.specs.LineInvalidations.{victim_by};
ghost use Rattle.invalidations.specs.Latest.{accesses_of, latest};
ghost use Rattle.invalidations.specs.Laws.Another.{held_by_another};
ghost use Rattle.invalidations.specs.Laws.BlameCounts.{takes_at};
ghost use Rattle.invalidations.specs.Laws.Sums.{taken_in};
ghost use Rattle.invalidations.specs.Invalidations.{hart_pairs, is_in_by_another, is_of_one_word};
ghost use Rattle.invalidations.specs.Invalidations.{invalidates_line, pairs, invalidation_count};
ghost use Rattle.invalidations.specs.Invalidations.{invalidations, victim};
ghost use Rattle.invalidations.specs.Invalidations.{victim_place};
ghost use Rattle.invalidations.specs.declared.sited.Sited.{Sited};
ghost use Rattle.trace_format.specs.Rules.{touches_in};
ghost use Rattle.trace_format.specs.declared.record.TraceRecord.{TraceRecord};

/// Each invalidation has a victim, and the victim's hart holds the line before it.
pub fn victims_hold_the_line()
    ensures { (l : Line) (start : ℕ) (before : List Sited) (s : Sited)
        → IsTrue (invalidates_line l start before s)
        → (v : Sited) × (victim l before s ≡ Some v)
        × IsTrue (holds_line l before v.access.hart) }
{}

/// Of a line two accesses are enough, whatever the number of harts: the latest access, and the
/// latest one by another hart than that, with whether this other hart holds the line.
pub fn two_accesses_are_enough()
    // they determine the latest access by another hart than any
    ensures victim { (l : Line) (before : List Sited) (hart : ℕ)
        → latest (is_in_by_another l hart) before ≡ victim_by (two_of l before) hart }
    // and whether another hart than any holds the line
    ensures held { (l : Line) (before : List Sited) (hart : ℕ)
        → held_by_another l before hart ≡ is_held_by (two_of l before) hart }
{}

/// Where the verdict over the words of a line since a start is that of false sharing, each
/// invalidation of one word has its victim below the start.
pub fn false_sharing_takes_no_word()
    ensures { (l : Line) (start : ℕ) (before after : List Sited) (s v : Sited) (i : ℕ)
        → IsTrue (is_layout l.size l.offset)
        → verdict_of (words_since l start (accesses_of (before ++ s ∷ after))) ≡ FalseSharing
        → IsTrue (invalidates_line l start before s) → victim_place l before s ≡ Some i
        → slice_get before i ≡ Some v
        → IsTrue (is_of_one_word (record { victim = v; taker = s })) → i < start }
{}

/// The count that is reported of a listed line, from the start that is listed with it, is the count
/// that is listed.
pub fn listed_counts_are_invalidations()
    ensures { (g : Grid) (v : Levels) (u : List Sited) (f : Finding)
        → Member f (listed g v (accesses_of u)) → f.count ≡ invalidation_count f.line f.start u }
{}

/// The invalidations of all pairs of instructions add up to the count, and so do those of all pairs
/// of harts.
pub fn invalidations_add_up()
    ensures invalidations { (l : Line) (start : ℕ) (u : List Sited)
        → length (invalidations l start u) ≡ invalidation_count l start u }
    ensures pairs { (l : Line) (start : ℕ) (u : List Sited)
        → taken_in (pairs l start u) ≡ invalidation_count l start u }
    ensures harts { (l : Line) (start : ℕ) (u : List Sited)
        → taken_in (hart_pairs l start u) ≡ invalidation_count l start u }
{}

/// The invalidations that are reported of a line add up to its number: those of its pairs of
/// instructions, and those of its pairs of harts.
pub fn taken_lines_add_up()
    ensures pairs { (l : Line) (u : List Sited)
        → taken_in (taken_line u l).pairs ≡ (taken_line u l).invalidations }
    ensures harts { (l : Line) (u : List Sited)
        → taken_in (taken_line u l).harts ≡ (taken_line u l).invalidations }
    // there are no more in all lines than accesses
    ensures all { (g : Grid) (u : List Sited) → all_invalidations g u ≤ length u }
{}

/// How often a line is taken, beside what is counted from a later start.
pub fn invalidations_beside_later_counts()
    // as often as after its first write, as caches that lose no line count it, and once more where
    // that write is an invalidation
    ensures first_write { (l : Line) (u : List Sited) (s : ℕ)
        → first_write_from 0 (is_inside l) (accesses_of u) ≡ Some s
        → (taken_line u l).invalidations ≡ line_count_since l s (accesses_of u)
        + (if takes_at l u s then 1 else 0) }
    // never where it isn't written
    ensures unwritten { (l : Line) (u : List Sited)
        → first_write_from 0 (is_inside l) (accesses_of u) ≡ None
        → (taken_line u l).invalidations ≡ 0 }
    // at least as often as is listed of it
    ensures listed { (g : Grid) (v : Levels) (u : List Sited) (f : Finding)
        → Member f (listed g v (accesses_of u)) → f.count ≤ (taken_line u f.line).invalidations }
{}

/// What is reported of a line among all lines is what is reported of the line alone from the start
/// 0 on.
pub fn lines_count_as_alone()
    ensures invalidations { (l : Line) (u : List Sited)
        → (taken_line u l).invalidations ≡ (kept_of l 0 u).count }
    ensures pairs { (l : Line) (u : List Sited)
        → (taken_line u l).pairs ≡ (kept_of l 0 u).pairs }
    ensures harts { (l : Line) (u : List Sited)
        → (taken_line u l).harts ≡ (kept_of l 0 u).harts }
{}

/// Without its pcs the sited list of a trace, its accesses with their pcs, is its access list. So
/// the other laws, which speak of the accesses of a sited list, speak of those of the trace.
pub fn sited_lists_are_access_lists()
    ensures { (items : List TraceRecord) → accesses_of (sited_in items) ≡ touches_in items }
{}
