// What is reported for an object that a name means, for whoever reads contracts alone.
ghost use Rattle.std.specs.Prelude.{◌≡◌, ℕ, Err, IsFalse, IsTrue, List, None, Ok, Option, Some};
ghost use Rattle.trace_format.specs.Rules.{touches_in};
ghost use Rattle.trace_format.specs.declared.record.TraceRecord.{TraceRecord as Record};
ghost use Rattle.placement.specs.Plans.{has_room};
ghost use Rattle.placement.specs.Sought.{is_too_large, object_of};
ghost use Rattle.placement.specs.Texts.{place_of_records, place_text};
ghost use Rattle.placement.specs.Words.{owned_of};
ghost use Rattle.placement.specs.declared.extent.Extent.{Extent as Object};
ghost use Rattle.placement.specs.declared.refusal.PlaceRefusal.TheVariants as refusals;

/// What is reported of a trace, step by step as one comes to know its records: the object, its
/// size, the room behind the accesses. Nothing is done.
pub fn cases_of_a_placement()
    // no object is meant
    ensures none { (n : ℕ) (name : List ℕ) (at : Option ℕ) (items : List Record)
        → object_of name at items ≡ None
        → place_of_records n name at items ≡ Err refusals.NoObject }
    // it is too large
    ensures large { (n : ℕ) (name : List ℕ) (at : Option ℕ) (items : List Record) (e : Object)
        → object_of name at items ≡ Some e → IsTrue (is_too_large e)
        → place_of_records n name at items ≡ Err refusals.TooLarge }
    // its words don't fit behind the accesses
    ensures no_room { (n : ℕ) (name : List ℕ) (at : Option ℕ) (items : List Record) (e : Object)
        → object_of name at items ≡ Some e → IsFalse (is_too_large e)
        → IsFalse (has_room n (owned_of e (touches_in items)))
        → place_of_records n name at items ≡ Err refusals.NoRoom }
    // or they are reported
    ensures placed { (n : ℕ) (name : List ℕ) (at : Option ℕ) (items : List Record) (e : Object)
        → object_of name at items ≡ Some e → IsFalse (is_too_large e)
        → IsTrue (has_room n (owned_of e (touches_in items)))
        → place_of_records n name at items ≡ Ok (place_text n name e (touches_in items)) }
{}
