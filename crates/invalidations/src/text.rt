// The text of what an explainer reports.
ghost use Rattle.std.specs.Prelude.{◌≡◌, ◌∷◌, ◌++◌, [], IfOk, List, OnOk, codes, map};
ghost use Rattle.std.specs.Prelude.{option_map, pos};
ghost use Rattle.std.specs.Fmt.{decimal};
ghost use Rattle.base.specs.Addresses.{address_text};
ghost use Rattle.sharing_rules.specs.Listed.{in_order};
ghost use Rattle.report.specs.Added.{AddsLine, AddsLines, AddsText};
ghost use Rattle.invalidations.specs.LineInvalidations.{StandsFor};
ghost use Rattle.invalidations.specs.Rows.{is_hart_row_before, is_pair_row_before};
ghost use Rattle.invalidations.specs.Rows.{is_site_row_before};
ghost use Rattle.invalidations.specs.Text.{counted_line, counted_words, explain_text, hart_line};
ghost use Rattle.invalidations.specs.Text.{head_lines, headed, owner_text, pair_line, site_line};
ghost use Rattle.invalidations.specs.Text.{site_words, reported_text};
ghost use Rattle.invalidations.specs.declared.sited.Sited.{Sited as ASited};

use crate::explainer::Explainer;
use crate::rows::{sorted_harts, sorted_pairs, sorted_sites};
use crate::sited::Sides;
use crate::tables::Taken;
use base::{Ending, Name, NoMemory, Range, push_address, push_address_past};
use objects::{ObjectIndex, ObjectTable};
use report::{push_function, push_outcome_lines};
use sharing_rules::{Owner, Word};
use std::alloc::{AllocError, Global};

// The line by its addresses, its start and its count.
fn push_counted(text: &mut String, range: Range, start: u64, count: u64) -> Result<(), AllocError>
    ensures { OnOk result (AddsLine text.old text.new (counted_words range start count)) }
{
    let size = range.size;
    text.push_str("line ")?;
    push_address_past(text, range.base, 0)?;
    writeln!(text, " {size} start {start} count {count}")
}

// The line of an explainer.
fn push_counted_line(text: &mut String, explainer: &Explainer) -> Result<(), AllocError>
    ensures { OnOk result (AddsLine text.old text.new
        (counted_line explainer.now.line explainer.now.start explainer.now.count)) }
{
    let range = explainer.line().range();
    let start = explainer.start();
    let count = explainer.count();
    push_counted(text, range, start, count)
}

// The harts of a site.
fn push_owner(text: &mut String, owner: Owner) -> Result<(), AllocError>
    ensures { OnOk result (AddsText text.old text.new (owner_text owner)) }
{
    match owner {
        Owner::None => Ok(()),
        Owner::One(hart) => {
            let number = hart.number();
            write!(text, "hart {number} ")
        }
        Owner::Many => text.push_str("many "),
    }
}

// A site, and what it did.
fn push_visits(text: &mut String, pc: u32, word: Word) -> Result<(), AllocError>
    ensures { OnOk result (AddsText text.old text.new (codes "site " ++ address_text (pos pc)
        ++ codes " reads " ++ decimal word.reads ++ codes " writes " ++ decimal word.writes
        ++ codes " ")) }
{
    let reads = word.reads;
    let writes = word.writes;
    text.push_str("site ")?;
    push_address(text, u64::from(pc))?;
    write!(text, " reads {reads} writes {writes} ")
}

// The end of a line.
fn push_line_end(text: &mut String) -> Result<(), AllocError>
    ensures { OnOk result (AddsText text.old text.new (codes "\n")) }
{
    text.push_str("\n")
}

// The line of a site, with the name of a function.
fn push_site_in(
    text: &mut String,
    pc: u32,
    word: Word,
    function: Option<&Name>,
) -> Result<(), AllocError>
    ensures { OnOk result (AddsLine text.old text.new
        (site_words pc word (option_map (λ name. name.now) function.entry))) }
{
    let owner = word.owner;
    push_visits(text, pc, word)?;
    push_owner(text, owner)?;
    push_function(text, function)?;
    push_line_end(text)
}

// A site, and the first function that holds it.
fn push_site(
    text: &mut String,
    index: &ObjectIndex<'_>,
    site: &(u32, Word),
) -> Result<(), AllocError>
    ensures { OnOk result (AddsLine text.old text.new
        (site_line index.now.symbols site.now)) }
{
    let (pc, word) = *site;
    let function = index.function_at(pc)?;
    push_site_in(text, pc, word, function)
}

/// Two instructions.
pub(crate) fn push_pair(text: &mut String, pair: &(Sides, Taken)) -> Result<(), AllocError>
    ensures { OnOk result (AddsLine text.old text.new (pair_line pair.now)) }
{
    let (sides, taken) = *pair;
    let Taken { taken, same } = taken;
    text.push_str("pair ")?;
    push_address(text, u64::from(sides.victim))?;
    text.push_str(" ")?;
    push_address(text, u64::from(sides.taker))?;
    writeln!(text, " taken {taken} same {same}")
}

/// Two harts.
pub(crate) fn push_hart(text: &mut String, pair: &(Sides, Taken)) -> Result<(), AllocError>
    ensures { OnOk result (AddsLine text.old text.new (hart_line pair.now)) }
{
    let (sides, taken) = *pair;
    let Sides { victim, taker } = sides;
    let taken = taken.taken;
    writeln!(text, "from {victim} to {taker} taken {taken}")
}

// The lines of sites.
fn push_sites(
    text: &mut String,
    index: &ObjectIndex<'_>,
    sites: &[(u32, Word)],
) -> Result<(), AllocError>
    ensures { OnOk result (AddsLines text.old text.new
        (headed (codes "sites") (map (site_line index.now.symbols) sites.now))) }
{
    let count = sites.len();
    writeln!(text, "sites {count}")?;
    for site in sites {
        push_site(text, index, site)?;
    }
    Ok(())
}

// The lines of pairs of instructions.
fn push_pairs(text: &mut String, pairs: &[(Sides, Taken)]) -> Result<(), AllocError>
    ensures { OnOk result (AddsLines text.old text.new
        (headed (codes "pairs") (map pair_line pairs.now))) }
{
    let count = pairs.len();
    writeln!(text, "pairs {count}")?;
    for pair in pairs {
        push_pair(text, pair)?;
    }
    Ok(())
}

// The lines of pairs of harts.
fn push_harts(text: &mut String, pairs: &[(Sides, Taken)]) -> Result<(), AllocError>
    ensures { OnOk result (AddsLines text.old text.new
        (headed (codes "harts") (map hart_line pairs.now))) }
{
    let count = pairs.len();
    writeln!(text, "harts {count}")?;
    for pair in pairs {
        push_hart(text, pair)?;
    }
    Ok(())
}

// The first line.
fn push_title(text: &mut String) -> Result<(), AllocError>
    ensures { OnOk result (AddsText text.old text.new (codes "predator explain 1\n")) }
{
    text.push_str("predator explain 1\n")
}

// The first lines.
fn push_head(text: &mut String, ending: &Ending, explainer: &Explainer) -> Result<(), AllocError>
    ensures { OnOk result (AddsLines text.old text.new
        (head_lines ending.now explainer.now)) }
{
    push_title(text)?;
    push_outcome_lines(text, ending)?;
    push_counted_line(text, explainer)
}

/// The last line.
pub(crate) fn push_end(text: &mut String) -> Result<(), AllocError>
    ensures { OnOk result (AddsText text.old text.new (codes "end\n")) }
{
    text.push_str("end\n")
}

// The lines of the tables.
fn push_tables(
    text: &mut String,
    index: &ObjectIndex<'_>,
    sites: &[(u32, Word)],
    pairs: &[(Sides, Taken)],
    harts: &[(Sides, Taken)],
) -> Result<(), AllocError>
    ensures { OnOk result (AddsLines text.old text.new
        (headed (codes "sites") (map (site_line index.now.symbols) sites.now)
        ++ headed (codes "pairs") (map pair_line pairs.now)
        ++ headed (codes "harts") (map hart_line harts.now)
        ++ (codes "end" ∷ []) ∷ [])) }
{
    push_sites(text, index, sites)?;
    push_pairs(text, pairs)?;
    push_harts(text, harts)?;
    push_end(text)
}

// The text of an explainer whose rows stand in order.
fn text_of_rows(
    alloc: Global,
    ending: &Ending,
    index: &ObjectIndex<'_>,
    explainer: &Explainer,
    sites: &[(u32, Word)],
    pairs: &[(Sides, Taken)],
    harts: &[(Sides, Taken)],
) -> Result<Vec<u8>, NoMemory>
    requires sites { sites.now ≡ in_order is_site_row_before explainer.now.sites }
    requires pairs { pairs.now ≡ in_order is_pair_row_before explainer.now.pairs }
    requires harts { harts.now ≡ in_order is_hart_row_before explainer.now.harts }
    ensures { IfOk result (λ text. text.items
        ≡ reported_text ending.now index.now.symbols explainer.now) }
{
    let mut text = String::new(alloc);
    push_head(&mut text, ending, explainer)?;
    push_tables(&mut text, index, sites, pairs, harts)?;
    Ok(text.into_bytes())
}

/// What an explainer reports of its line, with how the run ended and the functions of its program:
/// its sites by rising pc; the pairs of instructions by invalidations falling; and the pairs of
/// harts.
///
/// NoMemory comes where there is no memory for the text, for the rows and their sort, for 24 bytes
/// a symbol and a block, or for 8 bytes each symbol that holds a site.
pub fn write_explain(
    alloc: Global,
    ending: &Ending,
    objects: &ObjectTable,
    explainer: &Explainer,
) -> Result<Vec<u8>, NoMemory>
    ensures stated { IfOk result (λ text. text.items
        ≡ reported_text ending.now objects.now.symbols explainer.now) }
    // where it stands for a list, it is the text of the list
    ensures stands { (u : List ASited) → StandsFor u explainer.now
        → IfOk result (λ text. text.items ≡ explain_text ending.now objects.now.symbols
        explainer.now.line explainer.now.start u) }
{
    let sites = sorted_sites(alloc, explainer.sites())?;
    let pairs = sorted_pairs(alloc, explainer.pairs())?;
    let harts = sorted_harts(alloc, explainer.harts())?;
    let index = ObjectIndex::new(alloc, objects)?;
    text_of_rows(alloc, ending, &index, explainer, &sites, &pairs, &harts)
}
