// The text of a placement.
ghost use Rattle.std.specs.Prelude.{◌≡◌, ◌+◌, ◌*◌, ◌<◌, ◌≤◌, ◌^◌, [], ◌∷◌, ◌++◌, List, IfOk, OnOk};
ghost use Rattle.std.specs.Prelude.{codes, length, option_map, option_to_list, slice_get};
ghost use Rattle.std.specs.Prelude.{string_bytes};
ghost use Rattle.std.specs.Fmt.{decimal};
ghost use Rattle.base.specs.TextLines.{text_of};
ghost use Rattle.sharing_rules.specs.AccessLists.{AccessList};
ghost use Rattle.trace_format.specs.Rules.{touches_in};
ghost use Rattle.trace_format.specs.declared.record.TraceRecord.{TraceRecord as Record};
ghost use Rattle.placement.specs.Passing.{HasRecounted, RecountsFor};
ghost use Rattle.placement.specs.Plans.{plan_of};
ghost use Rattle.placement.specs.Pieces.{from_text, hart_end, next_address, sizes_end, sums_end};
ghost use Rattle.placement.specs.Pieces.{to_text, way_text};
ghost use Rattle.placement.specs.Texts.{end_lines, head_lines, owner_words, place_lines};
ghost use Rattle.placement.specs.Texts.{place_text, touched_line, touched_lines, word_line};
ghost use Rattle.placement.specs.Words.{first_word as first_of_words, owned_of};
ghost use Rattle.placement.specs.declared.recount.Recount.{Recount as Counter};

use crate::extent::Extent;
use crate::owners::{Owners, first_word};
use crate::plan::Plan;
use crate::recount::Recount;
use crate::sums::Sums;
use base::{NoMemory, push_address, push_name};
use sharing_rules::Owner;
use std::alloc::{AllocError, Global};

// An address as one word more of a line.
fn push_address_word(text: &mut String, at: u64) -> Result<(), AllocError>
    ensures { OnOk result (string_bytes text.new ≡ string_bytes text.old ++ next_address at) }
{
    text.push_str(" ")?;
    push_address(text, at)
}

// The same of an address of 32 bits.
fn push_short_address(text: &mut String, at: u32) -> Result<(), AllocError>
    ensures { OnOk result (string_bytes text.new ≡ string_bytes text.old ++ next_address at) }
{
    push_address_word(text, u64::from(at))
}

// The first word.
fn push_title(text: &mut String) -> Result<(), AllocError>
    ensures { OnOk result (string_bytes text.new ≡ string_bytes text.old ++ codes "place ") }
{
    text.push_str("place ")
}

// The end of the first line, and the second.
fn push_sizes(text: &mut String, bytes: u32, size: u32, words: usize) -> Result<(), AllocError>
    ensures { OnOk result (string_bytes text.new
        ≡ string_bytes text.old ++ sizes_end bytes size words) }
{
    writeln!(text, " {bytes} line {size}\nwords {words}")
}

// The object, the line size, and how many words the object has.
fn push_head(
    text: &mut String,
    name: &[u8],
    extent: Extent,
    size: u32,
    words: usize,
) -> Result<(), AllocError>
    ensures { OnOk result (string_bytes text.new
        ≡ string_bytes text.old ++ text_of (head_lines size name.now extent words)) }
{
    push_title(text)?;
    push_name(text, name)?;
    push_short_address(text, extent.addr)?;
    push_sizes(text, extent.size, size, words)
}

// Where a word is.
fn push_from(text: &mut String, from: u64) -> Result<(), AllocError>
    ensures { OnOk result (string_bytes text.new ≡ string_bytes text.old ++ from_text from) }
{
    text.push_str("word")?;
    push_address_word(text, from)
}

// Where it goes.
fn push_to(text: &mut String, to: u32) -> Result<(), AllocError>
    ensures { OnOk result (string_bytes text.new ≡ string_bytes text.old ++ to_text to) }
{
    text.push_str(" to")?;
    push_short_address(text, to)
}

// Both.
fn push_way(text: &mut String, from: u64, to: u32) -> Result<(), AllocError>
    ensures { OnOk result (string_bytes text.new ≡ string_bytes text.old ++ way_text from to) }
{
    push_from(text, from)?;
    push_to(text, to)
}

// The one hart that touches it.
fn push_hart(text: &mut String, hart: u16) -> Result<(), AllocError>
    ensures { OnOk result (string_bytes text.new ≡ string_bytes text.old ++ hart_end hart) }
{
    writeln!(text, " hart {hart}")
}

// That many do.
fn push_many(text: &mut String) -> Result<(), AllocError>
    ensures { OnOk result (string_bytes text.new ≡ string_bytes text.old ++ codes " many\n") }
{
    text.push_str(" many\n")
}

// The line of a word of one hart.
fn push_word_of_hart(text: &mut String, from: u64, to: u32, hart: u16) -> Result<(), AllocError>
    ensures { OnOk result (string_bytes text.new ≡ string_bytes text.old
        ++ text_of (word_line from to (codes "hart" ∷ decimal hart ∷ []) ∷ [])) }
{
    push_way(text, from, to)?;
    push_hart(text, hart)
}

// That of a word of many harts.
fn push_word_of_many(text: &mut String, from: u64, to: u32) -> Result<(), AllocError>
    ensures { OnOk result (string_bytes text.new ≡ string_bytes text.old
        ++ text_of (word_line from to (codes "many" ∷ []) ∷ [])) }
{
    push_way(text, from, to)?;
    push_many(text)
}

// The line of a word, if it is touched.
fn push_word(text: &mut String, from: u64, to: u32, owner: Owner) -> Result<(), AllocError>
    ensures { OnOk result (string_bytes text.new ≡ string_bytes text.old
        ++ text_of (option_to_list (option_map (word_line from to) (owner_words owner)))) }
{
    match owner {
        Owner::One(hart) => push_word_of_hart(text, from, to, hart.number()),
        Owner::Many => push_word_of_many(text, from, to),
        Owner::None => Ok(()),
    }
}

// The owner of word i.
fn owner_at(owners: &[Owner], i: usize) -> Option<Owner>
    ensures { result ≡ slice_get owners.now i }
{
    owners.get(i).copied()
}

// Where word i of an object begins.
fn address_of(extent: Extent, i: usize) -> u64
    requires { i < 2 ^ 23 }
    ensures { result ≡ 4 * (first_of_words extent + i) }
{
    4 * (u64::from(first_word(extent)) + i as u64)
}

// The line of word i of an object, if it is touched.
fn push_touched(text: &mut String, owners: &Owners, plan: &Plan, i: usize) -> Result<(), AllocError>
    requires { i < 2 ^ 23 }
    ensures { OnOk result (string_bytes text.new ≡ string_bytes text.old
        ++ text_of (option_to_list (touched_line owners.now plan.now i))) }
{
    let from = address_of(owners.extent(), i);
    match owner_at(owners.owners(), i) {
        Some(owner) => match plan.place(i) {
            Some(to) => push_word(text, from, to, owner),
            None => Ok(()),
        },
        None => Ok(()),
    }
}

// How many words an object has.
fn word_total(owners: &Owners) -> usize
    ensures value { result ≡ length owners.now.owners }
    ensures few { result ≤ 2 ^ 23 }
{
    owners.owners().len()
}

// The lines of all touched words.
fn push_words(text: &mut String, owners: &Owners, plan: &Plan) -> Result<(), AllocError>
    ensures { OnOk result (string_bytes text.new
        ≡ string_bytes text.old ++ text_of (touched_lines owners.now plan.now)) }
{
    let count = word_total(owners);
    for i in 0..count {
        push_touched(text, owners, plan, i)?;
    }
    Ok(())
}

// The first word behind those lines.
fn push_area(text: &mut String) -> Result<(), AllocError>
    ensures { OnOk result (string_bytes text.new ≡ string_bytes text.old ++ codes "area") }
{
    text.push_str("area")
}

// The end of the area's line, and the lines behind it.
fn push_sums(text: &mut String, size: u64, sums: Sums) -> Result<(), AllocError>
    ensures { OnOk result (string_bytes text.new ≡ string_bytes text.old ++ sums_end size sums) }
{
    let before = sums.before;
    let after = sums.after;
    let many = sums.many;
    writeln!(
        text,
        " {size}\nbefore {before}\nafter {after}\nmany {many}\nend"
    )
}

// The area, and what the plan comes to.
fn push_end(text: &mut String, plan: &Plan, sums: Sums) -> Result<(), AllocError>
    ensures { OnOk result (string_bytes text.new
        ≡ string_bytes text.old ++ text_of (end_lines plan.now sums)) }
{
    push_area(text)?;
    push_address_word(text, plan.start())?;
    push_sums(text, plan.size(), sums)
}

// The whole text.
fn push_place(
    text: &mut String,
    name: &[u8],
    size: u32,
    owners: &Owners,
    plan: &Plan,
    sums: Sums,
) -> Result<(), AllocError>
    ensures { OnOk result (string_bytes text.new ≡ string_bytes text.old
        ++ text_of (place_lines size name.now owners.now plan.now sums)) }
{
    push_head(text, name, owners.extent(), size, word_total(owners))?;
    push_words(text, owners, plan)?;
    push_end(text, plan, sums)
}

// The text with these sums.
fn write_sums(
    alloc: Global,
    name: &str,
    size: u32,
    owners: &Owners,
    plan: &Plan,
    sums: Sums,
) -> Result<Vec<u8>, NoMemory>
    ensures { IfOk result (λ text. text.items ≡ text_of
        (place_lines size name.now owners.now plan.now sums)) }
{
    let mut text = String::new(alloc);
    push_place(&mut text, name.as_bytes(), size, owners, plan, sums)?;
    Ok(text.into_bytes())
}

/// The text of a placement: the object of a name, where each touched word of it goes and who touches
/// it, the area, and the invalidations before and after.
pub fn write_place(
    alloc: Global,
    name: &str,
    owners: &Owners,
    recount: &Recount,
) -> Result<Vec<u8>, NoMemory>
    // where it was counted for a list with the plan for the owners of that list
    ensures of_list { (t : AccessList) → owners.now ≡ owned_of owners.now.extent t
        → recount.now.plan ≡ plan_of recount.now.size owners.now → RecountsFor t recount.now
        → IfOk result (λ text. text.items
        ≡ place_text recount.now.size name.now owners.now.extent t) }
    // where it was counted from nothing on for the records of the same list
    ensures of_records { (begun : Counter) (items : List Record)
        → owners.now ≡ owned_of owners.now.extent (touches_in items) → RecountsFor [] begun
        → begun.plan ≡ plan_of begun.size owners.now → HasRecounted begun recount.now items
        → IfOk result (λ text. text.items
        ≡ place_text begun.size name.now owners.now.extent (touches_in items)) }
{
    write_sums(
        alloc,
        name,
        recount.size(),
        owners,
        recount.plan(),
        recount.sums(),
    )
}
