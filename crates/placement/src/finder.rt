// Finds the object that a name means.
ghost use Rattle.std.specs.Prelude.{◌≡◌, ◌≤◌, [], ℕ, IfOk, IfSome, List, None, Option};
ghost use Rattle.std.specs.Prelude.{if◌then◌else◌, is_some, option_and_then, ◌&&◌, ◌||◌};
ghost use Rattle.std.specs.Option.{option_or};
ghost use Rattle.std.proofs.Props.{props};
ghost use Rattle.objects.specs.Symbols.{is_same_kind};
ghost use Rattle.objects.specs.declared.symbol.SymbolKind.TheVariants as kinds;
ghost use Rattle.trace_format.specs.Rules.{IsWritable};
ghost use Rattle.trace_format.specs.declared.record.TraceRecord.{TraceRecord as Record};
ghost use Rattle.placement.specs.Sought.{block_made_at, object_of, symbol_named, with_bytes};

use crate::extent::Extent;
use base::{Name, NoMemory};
use objects::SymbolKind;
use std::alloc::Global;
use trace_format::TraceRecord;
use trace_passes::Observer;

/// Seeks the object that a name means among the records of a trace: the first object symbol of the
/// name. Where there is none, and the name is an address, the block that was ever made there, if one
/// alone was.
#[derive(Drop)]
pub struct Finder {
    name: Vec<u8>,
    at: Option<u32>,
    symbol: Option<Extent>,
    block: Option<Extent>,
    several: bool,
    pub ghost some: { IfSome symbol (λ e. 1 ≤ e.size) } by { Prim.hlevel props },
}

// Where the object symbol of a record lies, if it states one of the name.
fn symbol_of(name: &[u8], item: &TraceRecord) -> Option<Extent>
    requires { IsWritable item.now }
    ensures value { result ≡ symbol_named name.now item.now }
    ensures some { IfSome result (λ e. 1 ≤ e.size) }
{
    match item {
        TraceRecord::Symbol {
            kind,
            addr,
            size,
            name: stated,
        } if is_object(*kind) && stated.bytes() == name => Some(Extent {
            addr: *addr,
            size: *size,
        }),
        _ => None,
    }
}

// Whether a symbol names an object.
fn is_object(kind: SymbolKind) -> bool
    ensures { result ≡ is_same_kind kind kinds.Object }
{
    matches!(kind, SymbolKind::Object)
}

// Where the block of a record lies, if it makes one at the address.
fn block_of(at: u32, item: &TraceRecord) -> Option<Extent>
    ensures { result ≡ block_made_at at item.now }
{
    match item {
        TraceRecord::Alloc { addr, size, .. } if *addr == at => Some(Extent {
            addr: *addr,
            size: *size,
        }),
        _ => None,
    }
}

// The first of the two, if there is one.
fn first_of(one: Option<Extent>, other: Option<Extent>) -> Option<Extent>
    ensures value { result ≡ option_or one other }
    ensures some { IfSome one (λ e. 1 ≤ e.size) → IfSome other (λ e. 1 ≤ e.size)
        → IfSome result (λ e. 1 ≤ e.size) }
{
    match one {
        Some(extent) => Some(extent),
        None => other,
    }
}

// A block of no bytes has no words.
fn of_some(extent: Extent) -> Option<Extent>
    ensures value { result ≡ with_bytes extent }
    ensures some { IfSome result (λ e. 1 ≤ e.size) }
{
    if extent.size > 0 { Some(extent) } else { None }
}

impl Finder {
    ghost use Rattle.trace_passes.specs.Rooms.{GivenNext};
    ghost use Rattle.placement.specs.Passing.{HasSought, Seeks};

    /// Nothing seen yet. It takes memory for the name.
    pub fn new(alloc: Global, name: &str, at: Option<u32>) -> Result<Finder, NoMemory>
        ensures { IfOk result (λ f. Seeks name.now at f []) }
    {
        let name = Vec::from_slice(alloc, name.as_bytes())?;
        Ok(Finder {
            name,
            at,
            symbol: None,
            block: None,
            several: false,
        })
    }

    // A record that may state the symbol.
    fn note_symbol(&mut self, item: &TraceRecord)
        requires { IsWritable item.now }
        ensures symbol { self.new.symbol
            ≡ option_or self.old.symbol (symbol_named self.old.name.items item.now) }
        ensures name { self.new.name ≡ self.old.name }
        ensures at { self.new.at ≡ self.old.at }
        ensures block { self.new.block ≡ self.old.block }
        ensures several { self.new.several ≡ self.old.several }
    {
        if self.symbol.is_none() {
            self.symbol = symbol_of(self.name.as_slice(), item);
        }
    }

    // A record that may make a block there.
    fn note_block(&mut self, item: &TraceRecord)
        ensures block { self.new.block ≡ option_or self.old.block
            (option_and_then (λ a. block_made_at a item.now) self.old.at) }
        ensures several { self.new.several ≡ (self.old.several || (is_some self.old.block
            && is_some (option_and_then (λ a. block_made_at a item.now) self.old.at))) }
        ensures name { self.new.name ≡ self.old.name }
        ensures at { self.new.at ≡ self.old.at }
        ensures symbol { self.new.symbol ≡ self.old.symbol }
    {
        let block = made_at(self.at, item);
        self.several = self.several || (self.block.is_some() && block.is_some());
        self.block = first_of(self.block, block);
    }

    // One record more.
    fn note_item(&mut self, item: &TraceRecord)
        requires { IsWritable item.now }
        ensures { GivenNext HasSought self.old self.new item.now }
    {
        self.note_symbol(item);
        self.note_block(item);
    }

    // The block that was made alone, if it has bytes.
    fn lone_block(&self) -> Option<Extent>
        ensures value { result ≡ (if self.now.several then None
            else option_and_then with_bytes self.now.block) }
        ensures some { IfSome result (λ e. 1 ≤ e.size) }
    {
        match self.block {
            Some(extent) if !self.several => of_some(extent),
            _ => None,
        }
    }

    /// The object, if one is meant.
    pub fn found(&self) -> Option<Extent>
        ensures object { (name : List ℕ) (at : Option ℕ) (items : List Record)
            → Seeks name at self.now items → result ≡ object_of name at items }
        ensures some { IfSome result (λ e. 1 ≤ e.size) }
    {
        first_of(self.symbol, self.lone_block())
    }
}

// Where the block of a record lies, if it makes one at the address, and there is one.
fn made_at(at: Option<u32>, item: &TraceRecord) -> Option<Extent>
    ensures { result ≡ option_and_then (λ a. block_made_at a item.now) at }
{
    match at {
        Some(at) => block_of(at, item),
        None => None,
    }
}

impl Observer for Finder {
    ghost use Rattle.placement.specs.Passing.{HasSought};

    ghost given = { HasSought };

    ghost known = { λ _ _. Unit {0} };

    fn note(&mut self, item: &TraceRecord) -> Result<(), NoMemory> {
        self.note_item(item);
        Ok(())
    }
}
