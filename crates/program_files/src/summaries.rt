// The text that describes a program.
ghost use Rattle.std.specs.Prelude.{◌≡◌, ◌++◌, codes, IfOk};
ghost use Rattle.std.specs.Prelude.{string_bytes};
ghost use Rattle.std.specs.List.{flat_map};
ghost use Rattle.objects.specs.declared.symbol.SymbolKind.TheVariants.{Object, Function};
ghost use Rattle.program_files.specs.SegmentViews.{segment_shown};
ghost use Rattle.program_files.specs.Symbols.{symbols_of};
ghost use Rattle.program_files.specs.PlacedImages.{IsImageOf};
ghost use Rattle.program_files.specs.declared.image.Space.{Space};
ghost use Rattle.program_files.specs.NotedSymbols.{noted};
ghost use Rattle.program_files.specs.Summaries.{address as address_is, count_text};
ghost use Rattle.program_files.specs.Summaries.{placed_text, range_text, right_text};
ghost use Rattle.program_files.specs.Summaries.{segment_text, summary_text};

use crate::program::Segments;
use crate::summary_symbols::count_of;
use crate::{ElfView, Image, Segment};
use base::{NoMemory, address};
use objects::{ObjectTable, SymbolKind};
use std::alloc::{AllocError, Global};

const PF_X: u32 = 1;

const PF_W: u32 = 2;

const PF_R: u32 = 4;

fn guest_address(alloc: Global, at: u32) -> Result<String, AllocError>
    ensures { IfOk result (λ text. string_bytes text ≡ address_is at) }
{
    address(alloc, i64::from(at))
}

// The letter of a right, or `-` where it isn't given.
fn right(given: bool, letter: &'static str) -> &'static str
    ensures { result.now ≡ right_text given letter.now }
{
    if given { letter } else { "-" }
}

fn segment_line(alloc: Global, segment: Segment<'_>) -> Result<String, AllocError>
    ensures { IfOk result (λ text. string_bytes text ≡ segment_text (segment_shown segment.entry)) }
{
    let base = guest_address(alloc, segment.addr)?;
    let size = segment.size;
    let read = right(segment.flags / PF_R % 2 == 1, "r");
    let write = right(segment.flags / PF_W % 2 == 1, "w");
    let run = right(segment.flags % 2 == PF_X, "x");
    format!(in alloc; "segment {base} {size} {read}{write}{run}\n")
}

// The lines of segments, one after another.
fn segment_lines(alloc: Global, mut segments: Segments<'_>) -> Result<String, AllocError>
    ensures { IfOk result (λ text. string_bytes text ≡ flat_map segment_text segments.entry) }
{
    let mut text = String::new(alloc);
    while let Some(segment) = segments.next() {
        let one = segment_line(alloc, segment)?;
        text.push_str(one.as_str())?;
    }
    Ok(text)
}

fn range_line(alloc: Global, name: &str, first: u32, end: u32) -> Result<String, AllocError>
    ensures { IfOk result (λ text. string_bytes text ≡ range_text name.now first end) }
{
    let first = guest_address(alloc, first)?;
    let end = guest_address(alloc, end)?;
    format!(in alloc; "{name}{first} {end}\n")
}

// The lines of how many symbols there are.
fn count_lines(alloc: Global, symbols: &ObjectTable) -> Result<String, AllocError>
    ensures { IfOk result
        (λ text. string_bytes text ≡ count_text (codes "objects ")
        (Rattle.program_files.specs.NotedSymbols.count_of Object symbols.now.symbols) ++ count_text
        (codes "functions ")
        (Rattle.program_files.specs.NotedSymbols.count_of Function symbols.now.symbols)) }
{
    let objects = count_of(symbols, SymbolKind::Object);
    let functions = count_of(symbols, SymbolKind::Function);
    format!(in alloc; "objects {objects}\nfunctions {functions}\n")
}

// The text that describes a program file.
fn summary_of(
    alloc: Global,
    view: &ElfView<'_>,
    image: &Image,
    symbols: &ObjectTable,
) -> Result<String, AllocError>
    ensures { IfOk result (λ text. string_bytes text ≡ summary_text view.now image.now.heap_start
        image.now.heap_end image.now.top symbols.now.symbols) }
{
    let entry = guest_address(alloc, view.entry())?;
    let segments = segment_lines(alloc, view.segments())?;
    let counts = count_lines(alloc, symbols)?;
    let heap = range_line(alloc, "heap ", image.heap_start, image.heap_end)?;
    let stacks = range_line(alloc, "stacks ", image.heap_end, image.top)?;
    format!(in alloc; "entry {entry}\n{segments}{counts}{heap}{stacks}end\n")
}

/// The text that describes a program file: the address of its first instruction, the segments in
/// the order of their headers, how many symbols of data and of code a table of them has, and where
/// the heap and the stacks of its image lie. It takes memory for the text.
pub fn summary(
    alloc: Global,
    view: &ElfView<'_>,
    image: &Image,
    symbols: &ObjectTable,
) -> Result<String, NoMemory>
    ensures text { IfOk result
        (λ text. string_bytes text ≡ summary_text view.now image.now.heap_start image.now.heap_end
        image.now.top symbols.now.symbols) }

    // Of the file's own image and symbols it is a text of the file and the space alone.
    ensures placed { IfOk result (λ text. (space : Space) → IsImageOf view.now space image.now
        → symbols.now.symbols ≡ noted (symbols_of view.now)
        → string_bytes text ≡ placed_text space view.now) }
{
    match summary_of(alloc, view, image, symbols) {
        Ok(text) => Ok(text),
        Err(AllocError) => Err(NoMemory),
    }
}
