// The lines of what stands on a listed line.
ghost use Rattle.std.specs.Prelude.{◌≡◌, ◌<◌, ◌+ℤ◌, ◌∷◌, [], ℕ, pos, codes, int_lt, true, OnOk};
ghost use Rattle.std.specs.Prelude.{filter_map, option_map, option_to_list, slice_get};
ghost use Rattle.std.specs.Fmt.{decimal};
ghost use Rattle.base.specs.Addresses.{address_text};
ghost use Rattle.objects.specs.Rows.{symbol_of};
ghost use Rattle.report.specs.Added.{AddsLine, AddsLines, AddsText};
ghost use Rattle.report.specs.Lines.{block_line, death_words, function_word, rest_of_line};
ghost use Rattle.report.specs.Lines.{site_lines, block_lines, lines_on, standing_lines};
ghost use Rattle.report.specs.Lines.{symbol_line, symbol_lines};

use crate::{block_on, symbol_on};
use base::{Name, Range, push_address, push_name};
use objects::{Block, ObjectIndex, ObjectTable, SymbolKind, SymbolRow};
use std::alloc::AllocError;

// The place of a symbol, and the end of its line.
fn push_place(text: &mut String, addr: u32, size: u32) -> Result<(), AllocError>
    ensures { OnOk result (AddsText text.old text.new
        (rest_of_line (address_text (pos addr) ∷ decimal size ∷ []))) }
{
    text.push_str(" ")?;
    push_address(text, u64::from(addr))?;
    writeln!(text, " {size}")
}

// The line of an object symbol.
fn push_symbol(text: &mut String, symbol: SymbolRow<'_>) -> Result<(), AllocError>
    ensures { OnOk result (AddsLine text.old text.new (symbol_line (symbol_of symbol.entry))) }
{
    text.push_str("object symbol ")?;
    push_name(text, symbol.name.bytes())?;
    push_place(text, symbol.addr, symbol.size)
}

// The end of a block's line: whether it died, and where.
fn push_death(text: &mut String, died: Option<u64>) -> Result<(), AllocError>
    ensures { OnOk result (AddsText text.old text.new (rest_of_line (death_words died))) }
{
    match died {
        Some(position) => writeln!(text, " died {position}"),
        None => text.push_str(" live\n"),
    }
}

// The line of a block.
fn push_block(text: &mut String, block: &Block) -> Result<(), AllocError>
    ensures { OnOk result (AddsLine text.old text.new (block_line block.now)) }
{
    let size = block.size;
    let born = block.born;
    text.push_str("object block ")?;
    push_address(text, u64::from(block.addr))?;
    write!(text, " {size} born {born}")?;
    push_death(text, block.died)
}

/// The name of a function, or `-`.
pub fn push_function(text: &mut String, function: Option<&Name>) -> Result<(), AllocError>
    ensures { OnOk result (AddsText text.old text.new
        (function_word (option_map (λ name. name.now) function.entry))) }
{
    match function {
        Some(name) => push_name(text, name.bytes()),
        None => text.push_str("-"),
    }
}

// The line of a site.
fn push_site(text: &mut String, site: u32, function: Option<&Name>) -> Result<(), AllocError>
    ensures { OnOk result (AddsLine text.old text.new
        (codes "site" ∷ address_text (pos site)
        ∷ function_word (option_map (λ name. name.now) function.entry) ∷ [])) }
{
    text.push_str("site ")?;
    push_address(text, u64::from(site))?;
    text.push_str(" ")?;
    push_function(text, function)?;
    text.push_str("\n")
}

// The line of a symbol, if it is an object on a range.
fn push_symbol_on(text: &mut String, symbol: SymbolRow<'_>, range: Range) -> Result<(), AllocError>
    ensures { OnOk result (AddsLines text.old text.new
        (symbol_lines range (symbol_of symbol.entry ∷ []))) }
{
    let is_object = matches!(symbol.kind, SymbolKind::Object);
    if is_object && symbol_on(range, symbol.addr, symbol.size) {
        push_symbol(text, symbol)?;
    }
    Ok(())
}

// The same of a symbol, if there is one.
fn push_symbol_at(
    text: &mut String,
    symbol: Option<SymbolRow<'_>>,
    range: Range,
) -> Result<(), AllocError>
    ensures { OnOk result (AddsLines text.old text.new
        (symbol_lines range (option_to_list (option_map symbol_of symbol.entry)))) }
{
    match symbol {
        Some(symbol) => push_symbol_on(text, symbol, range),
        None => Ok(()),
    }
}

// The lines of the symbols of some numbers that are objects on a range.
fn push_symbols_of(
    text: &mut String,
    objects: &ObjectTable,
    numbers: &[usize],
    range: Range,
) -> Result<(), AllocError>
    ensures { OnOk result (AddsLines text.old text.new
        (symbol_lines range (filter_map (slice_get objects.now.symbols) numbers.now))) }
{
    for number in numbers {
        push_symbol_at(text, objects.symbol(*number), range)?;
    }
    Ok(())
}

// The first address of a range, or 0 where it begins below.
fn first_address(range: Range) -> u64
    ensures { (a : ℕ) → 0 < a → int_lt range.base (pos a) ≡ true → result < a }
{
    if range.base < 0 {
        0
    } else {
        range.base.unsigned_abs()
    }
}

// The address behind a range, or 0 where it ends below.
fn end_address(range: Range) -> u64
    ensures { (a : ℕ) → int_lt (pos a) (range.base +ℤ pos range.size) ≡ true → a < result }
{
    let size = u64::from(range.size);
    if range.base < 0 {
        size.saturating_sub(range.base.unsigned_abs())
    } else {
        range.base.unsigned_abs() + size
    }
}

// The lines of the object symbols on a range.
fn push_symbols(text: &mut String, index: &ObjectIndex<'_>, range: Range) -> Result<(), AllocError>
    ensures { OnOk result (AddsLines text.old text.new (symbol_lines range index.now.symbols)) }
{
    let numbers = index.symbols_on(first_address(range), end_address(range))?;
    push_symbols_of(text, index.table(), &numbers, range)
}

// The line of a site, if it isn't 0.
fn push_site_of(text: &mut String, site: u32, index: &ObjectIndex<'_>) -> Result<(), AllocError>
    ensures { OnOk result (AddsLines text.old text.new
        (site_lines index.now.symbols (site ∷ []))) }
{
    if site > 0 {
        let function = index.function_at(site)?;
        push_site(text, site, function)?;
    }
    Ok(())
}

// The lines of the sites of a block.
fn push_sites(text: &mut String, sites: &[u32], index: &ObjectIndex<'_>) -> Result<(), AllocError>
    ensures { OnOk result (AddsLines text.old text.new (site_lines index.now.symbols sites.now)) }
{
    for site in sites {
        push_site_of(text, *site, index)?;
    }
    Ok(())
}

// The lines of a block.
fn push_block_lines(
    text: &mut String,
    block: &Block,
    index: &ObjectIndex<'_>,
) -> Result<(), AllocError>
    ensures { OnOk result (AddsLines text.old text.new
        (block_lines index.now.symbols block.now)) }
{
    push_block(text, block)?;
    push_sites(text, &block.sites, index)
}

// The lines of a block, if it is on a line whose track starts at `start`, where the accesses end
// at `end`.
fn push_block_on(
    text: &mut String,
    block: &Block,
    index: &ObjectIndex<'_>,
    range: Range,
    start: u64,
    end: u64,
) -> Result<(), AllocError>
    ensures { OnOk result (AddsLines text.old text.new
        (standing_lines index.now.symbols range start end (block.now ∷ []))) }
{
    if block_on(range, start, end, block) {
        push_block_lines(text, block, index)?;
    }
    Ok(())
}

// The same of a block, if there is one.
fn push_block_at(
    text: &mut String,
    block: Option<&Block>,
    index: &ObjectIndex<'_>,
    range: Range,
    start: u64,
    end: u64,
) -> Result<(), AllocError>
    ensures { OnOk result (AddsLines text.old text.new
        (standing_lines index.now.symbols range start end
        (option_to_list (option_map (λ b. b.now) block.entry)))) }
{
    match block {
        Some(block) => push_block_on(text, block, index, range, start, end),
        None => Ok(()),
    }
}

// The same of the blocks of some numbers.
fn push_blocks_of(
    text: &mut String,
    index: &ObjectIndex<'_>,
    objects: &ObjectTable,
    numbers: &[usize],
    range: Range,
    start: u64,
    end: u64,
) -> Result<(), AllocError>
    ensures { OnOk result (AddsLines text.old text.new
        (standing_lines index.now.symbols range start end
        (filter_map (slice_get objects.now.blocks) numbers.now))) }
{
    for number in numbers {
        push_block_at(text, objects.block(*number), index, range, start, end)?;
    }
    Ok(())
}

// The same of the blocks of a table.
fn push_blocks(
    text: &mut String,
    index: &ObjectIndex<'_>,
    range: Range,
    start: u64,
    end: u64,
) -> Result<(), AllocError>
    ensures { OnOk result (AddsLines text.old text.new
        (standing_lines index.now.symbols range start end index.now.blocks)) }
{
    let numbers = index.blocks_on(first_address(range), end_address(range))?;
    push_blocks_of(text, index, index.table(), &numbers, range, start, end)
}

/// The lines of the symbols on a range, and of the blocks that stand on it at some position from
/// `start` up to `end`.
pub fn push_objects(
    text: &mut String,
    index: &ObjectIndex<'_>,
    range: Range,
    start: u64,
    end: u64,
) -> Result<(), AllocError>
    ensures { OnOk result (AddsLines text.old text.new (lines_on index.now range start end)) }
{
    push_symbols(text, index, range)?;
    push_blocks(text, index, range, start, end)
}
