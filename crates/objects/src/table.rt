// The table of what stands in the guest's memory.
ghost use Rattle.std.specs.Prelude.{◌≡◌, ◌<◌, ◌↔◌, ◌++◌, [], ◌∷◌, List, length, IsTrue, Some};
ghost use Rattle.std.specs.Prelude.{slice_get, slice_index_or, slice_set, vec_capacity, vec_len};
ghost use Rattle.std.specs.Prelude.{option_map, IsSome, IfSome, IsOk, OnOk, OnErr, MatchOption};
ghost use Rattle.std.specs.Prelude.{ℕ, IsFalse, if◌then◌else◌};
ghost use Rattle.objects.specs.declared.block.Block.{Block};
ghost use Rattle.std.specs.List.{list_any};
ghost use Rattle.std.specs.Ordering.{nat_cmp};
ghost use Rattle.std.specs.BTreeMap as tree;
ghost use Rattle.objects.specs.Symbols.{Symbol, EachApart, NoTwoAlike, function_at};
ghost use Rattle.objects.specs.Symbols.{symbols_of};
ghost use Rattle.objects.specs.Symbols.{is_in_place_of, is_same_kind, kept_symbol};
ghost use Rattle.objects.specs.declared.symbol.SymbolKind.TheVariants.{Function};
ghost use Rattle.objects.specs.Blocks.{NoTwoLive, blocks_after_alloc, blocks_after_free};
ghost use Rattle.objects.specs.Blocks.{is_live_at, meets_live};
ghost use Rattle.objects.specs.Objects.{no_objects};

use crate::block::Block;
use crate::symbol::{SymbolKey, SymbolKind};
use base::{Name, NoMemory};
use indexmap::IndexMap;
use std::alloc::Global;
use std::collections::BTreeMap;
use std::marker::Model;

/// One symbol of a table.
#[derive(Clone, Copy, Debug)]
pub struct SymbolRow<'a> {
    /// What it names.
    pub kind: SymbolKind,
    /// Its first address.
    pub addr: u32,
    /// How many bytes it has.
    pub size: u32,
    /// Its name.
    pub name: &'a Name,
}

impl SymbolRow<'_> {
    ghost use Rattle.objects.specs.Symbols.{is_function_at};
    ghost use Rattle.objects.specs.Rows.{symbol_of};

    /// Whether it is a function whose bytes hold an address.
    pub fn is_function_at(&self, pc: u32) -> bool
        ensures { result ≡ is_function_at pc (symbol_of self.now) }
    {
        let end = u64::from(self.addr) + u64::from(self.size);
        is_function(self.kind) && self.addr <= pc && u64::from(pc) < end
    }
}

fn is_function(kind: SymbolKind) -> bool
    ensures { result ≡ is_same_kind kind Function }
{
    kind == SymbolKind::Function
}

/// The symbols of a program in first-seen order, no two of the same kind, address and size, and
/// the heap blocks that were ever made, in order of making.
///
/// Contracts see both lists.
#[derive(Drop)]
pub struct ObjectTable {
    symbols: IndexMap<SymbolKey, Name>,
    blocks: Vec<Block>,
    // the number of the live block at an address
    live: BTreeMap<u32, usize>,
}

impl Model for ObjectTable {
    ghost use Rattle.std.specs.Prelude.{map};
    ghost use Rattle.std.specs.Ordering.{nat_cmp};
    ghost use Rattle.std.specs.BTreeMap as tree;
    ghost use Rattle.objects.specs.Symbols.{NoTwoAlike};
    ghost use Rattle.objects.specs.Blocks.{is_live_at};
    ghost use Rattle.objects.specs.Objects.{Objects};
    ghost use Rattle.objects.specs.Indexes.{IsIndex};

    ghost Value = { Objects };

    ghost view = { λ t. record {
      symbols = map (λ e. record {
        kind = e.0.kind;
        addr = e.0.addr;
        size = e.0.size;
        name = e.1;
      }) t.symbols.entries;
      blocks = t.blocks.items;
    } };

    ghost invariant = { λ t.
        NoTwoAlike (map (λ e. record {
          kind = e.0.kind;
          addr = e.0.addr;
          size = e.0.size;
          name = e.1;
        }) t.symbols.entries)
        × IsIndex is_live_at (tree.get nat_cmp t.live) t.blocks.items };
}

impl ObjectTable {
    ghost use Rattle.objects.specs.Rows.{symbol_of};

    /// A table with no symbols and no blocks.
    pub fn new(alloc: Global) -> ObjectTable
        ensures { result ≡ no_objects }
    {
        ObjectTable {
            symbols: IndexMap::new(alloc),
            blocks: Vec::new(alloc),
            live: BTreeMap::new(alloc),
        }
    }

    /// Notes a symbol. One with the kind, address and size of an earlier one is dropped; of a name
    /// of more than 1024 bytes the first 1024 are kept. It takes memory for a symbol that is kept;
    /// where there is none, nothing changes.
    pub fn note_symbol(
        &mut self,
        kind: SymbolKind,
        addr: u32,
        size: u32,
        name: &[u8],
    ) -> Result<(), NoMemory>
        ensures noted { OnOk result (self.new ≡ record self.old {
          symbols = symbols_of (self.old.symbols ++ kept_symbol kind addr size name.now ∷ []);
        }) }
        // so the symbols are those of the whole list that was noted
        ensures whole { (seen : List Symbol) → self.old.symbols ≡ symbols_of seen
            → OnOk result (self.new.symbols
            ≡ symbols_of (seen ++ kept_symbol kind addr size name.now ∷ [])) }
        ensures refused { OnErr result (self.new ≡ self.old) }
        // one in a new place goes behind the others
        ensures fresh { let new = kept_symbol kind addr size name.now in
            IsFalse (list_any (is_in_place_of new) self.old.symbols)
            → OnOk result (self.new.symbols ≡ self.old.symbols ++ new ∷ []) }
        // for a symbol that is dropped it needs no memory
        ensures known { let new = kept_symbol kind addr size name.now in
            IsTrue (list_any (is_in_place_of new) self.old.symbols) → IsOk result }
    {
        let place = SymbolKey { kind, addr, size };
        if self.symbols.contains_key(&place) {
            return Ok(());
        }
        let name = match Name::new(*self.symbols.allocator(), name) {
            Ok(name) => name,
            Err(fault) => return Err(fault),
        };
        self.symbols.insert(place, name)?;
        Ok(())
    }

    /// Notes a block of `size` asked bytes at `addr`, born at a position; `sites` are the last four
    /// calls of the hart that made it, the newest first. A live block of that address dies at the
    /// position first. It takes memory; where there is none, nothing changes.
    pub fn note_alloc(
        &mut self,
        position: u64,
        addr: u32,
        size: u32,
        sites: [u32; 4],
    ) -> Result<(), NoMemory>
        ensures noted { OnOk result (self.new ≡ record self.old {
          blocks = blocks_after_alloc self.old.blocks position addr size sites;
        }) }
        ensures refused { OnErr result (self.new ≡ self.old) }
    {
        self.blocks.reserve(1)?;
        let old = self.live.insert(addr, self.blocks.len())?;
        end_life(&mut self.blocks, old, position);
        self.blocks.push_reserved(Block {
            addr,
            size,
            sites,
            born: position,
            died: None,
        });
        Ok(())
    }

    /// Notes that the live block at an address dies at a position. With no live block there,
    /// nothing changes.
    pub fn note_free(&mut self, position: u64, addr: u32)
        ensures { self.new ≡ record self.old {
          blocks = blocks_after_free self.old.blocks position addr;
        } }
    {
        let old = self.live.remove(&addr);
        end_life(&mut self.blocks, old, position);
    }

    /// Whether it has a symbol of this kind, address and size.
    pub fn has_symbol(&self, kind: SymbolKind, addr: u32, size: u32) -> bool
        ensures { result ≡ list_any (is_in_place_of (kept_symbol kind addr size []))
            self.now.symbols }
    {
        self.symbols.contains_key(&SymbolKey { kind, addr, size })
    }

    /// Whether a block lives at the address of one of the live blocks here.
    pub fn meets_live(&self, block: &Block) -> bool
        ensures { result ≡ meets_live self.now.blocks block.now }
    {
        block.died.is_none() && self.live.contains_key(&block.addr)
    }

    /// Puts a block with its life, as a saved state has it, behind the others: one that lives at an
    /// address where no other lives, or one that died. It takes memory; where there is none,
    /// nothing changes.
    pub fn note_saved_block(&mut self, block: Block) -> Result<(), NoMemory>
        requires { IsFalse (meets_live self.old.blocks block) }
        ensures noted { OnOk result (self.new ≡ record self.old {
          blocks = self.old.blocks ++ block ∷ [];
        }) }
        ensures refused { OnErr result (self.new ≡ self.old) }
    {
        self.blocks.reserve(1)?;
        note_life(&mut self.live, &block, self.blocks.len())?;
        self.blocks.push_reserved(block);
        Ok(())
    }

    /// Where its memory comes from.
    pub fn allocator(&self) -> Global {
        *self.symbols.allocator()
    }

    /// How many symbols it has.
    pub fn symbol_count(&self) -> usize
        ensures value { result ≡ length self.now.symbols }
        // and no two of them have the same kind, address and size
        ensures distinct { NoTwoAlike self.now.symbols }
        ensures apart { EachApart self.now.symbols }
    {
        self.symbols.len()
    }

    /// The symbol of a number, counted from 0 in first-seen order: None exactly where there are no
    /// more.
    pub fn symbol(&self, i: usize) -> Option<SymbolRow<'_>>
        ensures row { option_map symbol_of result ≡ slice_get self.now.symbols i }
        ensures found { IsSome result ↔ (i < length self.now.symbols) }
    {
        let (place, name) = self.symbols.get_index(i)?;
        Some(SymbolRow {
            kind: place.kind,
            addr: place.addr,
            size: place.size,
            name,
        })
    }

    /// The block of a number, counted from 0 in order of making: None exactly where there are no
    /// more.
    pub fn block(&self, i: usize) -> Option<&Block>
        ensures { option_map (λ b. b.now) result ≡ slice_get self.now.blocks i }
    {
        self.blocks.get(i)
    }

    /// The blocks that were ever made, live or dead, in order of making.
    pub fn blocks(&self) -> &[Block]
        ensures value { result.now ≡ self.now.blocks }
        // and no two of them live at one address
        ensures lone { NoTwoLive self.now.blocks }
    {
        self.blocks.as_slice()
    }

    /// The name of the first function whose bytes hold an address: None exactly where there is
    /// none. It looks at each symbol; an `ObjectIndex` finds the same at once.
    pub fn function_at(&self, pc: u32) -> Option<&Name>
        ensures { option_map (λ n. n.now) result ≡ function_at self.now.symbols pc }
    {
        for i in 0..self.symbol_count() {
            let row = self.symbol(i)?;
            if row.is_function_at(pc) {
                return Some(row.name);
            }
        }
        None
    }
}

// Notes the number of a block that lives at its address. At `NoMemory` nothing changes.
fn note_life(live: &mut BTreeMap<u32, usize>, block: &Block, number: usize) -> Result<(), NoMemory>
    ensures noted { OnOk result ((q : ℕ) → tree.get nat_cmp live.new q
        ≡ (if is_live_at q block.now then Some number else tree.get nat_cmp live.old q)) }
    ensures refused { OnErr result (live.new.entries ≡ live.old.entries) }
{
    if block.died.is_none() {
        live.insert(block.addr, number)?;
    }
    Ok(())
}

// Lets the block of a number die at a position.
fn end_life(blocks: &mut Vec<Block>, number: Option<usize>, position: u64)
    requires { IfSome number (λ n. n < length blocks.old.items) }
    ensures items { (d : Block) → MatchOption number (blocks.new.items ≡ blocks.old.items)
        (λ n. blocks.new.items ≡ slice_set blocks.old.items n
        (record (slice_index_or blocks.old.items n d) { died = Some position })) }
    ensures len { vec_len blocks.new ≡ vec_len blocks.old }
    ensures capacity { vec_capacity blocks.new ≡ vec_capacity blocks.old }
{
    if let Some(number) = number {
        blocks[number].died = Some(position);
    }
}
