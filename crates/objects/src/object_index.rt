// An index of a table's symbols and blocks by where their bytes lie.
ghost use Rattle.std.specs.Prelude.{◌≡◌, ◌++◌, IfOk, OnOk, filter, filter_map, length};
ghost use Rattle.std.specs.Prelude.{map, option_map, option_to_list, slice_get};
ghost use Rattle.objects.specs.AddressTrees.{IsTreeOf, extent_of, extents_from, meets};
ghost use Rattle.objects.specs.Extents.{block_extents, symbol_extents};
ghost use Rattle.objects.specs.Rows.{symbol_of};
ghost use Rattle.objects.specs.Symbols.{function_at};

use crate::address_tree::{Node, found_on, push_node, tree_of};
use crate::block::Block;
use crate::table::{ObjectTable, SymbolRow};
use base::{Name, NoMemory};
use std::alloc::{AllocError, Global};
use std::marker::Model;

/// A table of objects, with its symbols and its blocks by where their bytes lie, so that what lies
/// at some addresses is found without a look at each row: in a time that grows with the logarithm
/// of the number of rows, and with how many of them are found.
///
/// Contracts see what the table has.
#[derive(Drop)]
pub struct ObjectIndex<'a> {
    objects: &'a ObjectTable,
    symbols: Vec<Node>,
    blocks: Vec<Node>,
}

impl<'a> Model for ObjectIndex<'a> {
    ghost use Rattle.objects.specs.AddressTrees.{IsTreeOf};
    ghost use Rattle.objects.specs.Extents.{block_extents, symbol_extents};
    ghost use Rattle.objects.specs.Objects.{Objects};

    ghost Value = { Objects };

    ghost view = { λ t. t.objects.now };

    ghost invariant = { λ t. IsTreeOf (symbol_extents t.objects.now.symbols) t.symbols.items
        × IsTreeOf (block_extents t.objects.now.blocks) t.blocks.items };
}

impl<'a> ObjectIndex<'a> {
    /// The index of a table. It takes 24 bytes a symbol and a block; NoMemory comes where there is
    /// no memory for them.
    pub fn new(alloc: Global, objects: &'a ObjectTable) -> Result<ObjectIndex<'a>, NoMemory>
        ensures { IfOk result (λ index. index ≡ objects.now) }
    {
        let symbols = symbol_tree(alloc, objects)?;
        let blocks = block_tree(alloc, objects.blocks())?;
        Ok(ObjectIndex {
            objects,
            symbols,
            blocks,
        })
    }

    /// The table.
    pub fn table(&self) -> &'a ObjectTable
        ensures { result.now ≡ self.now }
    {
        self.objects
    }

    /// The numbers of the symbols whose bytes meet the addresses from `from` on and below `to`, in
    /// the table's order. It takes memory for them.
    pub fn symbols_on(&self, from: u64, to: u64) -> Result<Vec<usize>, AllocError>
        ensures { IfOk result (λ numbers. filter_map (slice_get self.now.symbols) numbers.items
            ≡ filter (λ s. meets from to s.addr s.size) self.now.symbols) }
    {
        found_on(self.objects.allocator(), &self.symbols, from, to)
    }

    /// The numbers of the blocks whose bytes meet the addresses from `from` on and below `to`, in
    /// the table's order. It takes memory for them.
    pub fn blocks_on(&self, from: u64, to: u64) -> Result<Vec<usize>, AllocError>
        ensures { IfOk result (λ numbers. filter_map (slice_get self.now.blocks) numbers.items
            ≡ filter (λ b. meets from to b.addr b.size) self.now.blocks) }
    {
        found_on(self.objects.allocator(), &self.blocks, from, to)
    }

    /// The name of the first function whose bytes hold an address: None exactly where there is
    /// none. It takes memory for the numbers of the symbols that hold it.
    pub fn function_at(&self, pc: u32) -> Result<Option<&'a Name>, AllocError>
        ensures { IfOk result (λ name. option_map (λ n. n.now) name
            ≡ function_at self.now.symbols pc) }
    {
        let numbers = self.symbols_on(u64::from(pc), u64::from(pc) + 1)?;
        Ok(first_function(self.objects, &numbers, pc))
    }
}

// Puts a symbol, if there is one, behind the others.
fn push_symbol(nodes: &mut Vec<Node>, symbol: Option<SymbolRow<'_>>) -> Result<(), AllocError>
    ensures { OnOk result (map extent_of nodes.new.items ≡ map extent_of nodes.old.items
        ++ extents_from (λ s. s.addr) (λ s. s.size) (length nodes.old.items)
        (option_to_list (option_map symbol_of symbol.entry))) }
{
    match symbol {
        Some(symbol) => push_node(nodes, symbol.addr, symbol.size),
        None => Ok(()),
    }
}

// The tree of the symbols.
fn symbol_tree(alloc: Global, objects: &ObjectTable) -> Result<Vec<Node>, NoMemory>
    ensures { IfOk result (λ tree.
        IsTreeOf (symbol_extents objects.now.symbols) tree.items) }
{
    let mut nodes = Vec::new(alloc);
    for i in 0..objects.symbol_count() {
        push_symbol(&mut nodes, objects.symbol(i))?;
    }
    Ok(tree_of(nodes))
}

// The tree of blocks.
fn block_tree(alloc: Global, blocks: &[Block]) -> Result<Vec<Node>, NoMemory>
    ensures { IfOk result (λ tree.
        IsTreeOf (block_extents blocks.now) tree.items) }
{
    let mut nodes = Vec::new(alloc);
    for block in blocks {
        push_node(&mut nodes, block.addr, block.size)?;
    }
    Ok(tree_of(nodes))
}

// The name of a symbol, if it is a function that holds an address.
fn name_there<'a>(symbol: Option<SymbolRow<'a>>, pc: u32) -> Option<&'a Name>
    ensures { option_map (λ n. n.now) result ≡ function_at
        (option_to_list (option_map symbol_of symbol.entry)) pc }
{
    match symbol {
        Some(symbol) if symbol.is_function_at(pc) => Some(symbol.name),
        _ => None,
    }
}

// The name of the first function that holds an address, of the symbols of some numbers.
fn first_function<'a>(objects: &'a ObjectTable, numbers: &[usize], pc: u32) -> Option<&'a Name>
    ensures { option_map (λ n. n.now) result ≡ function_at
        (filter_map (slice_get objects.now.symbols) numbers.now) pc }
{
    for number in numbers {
        let name = name_there(objects.symbol(*number), pc);
        if name.is_some() {
            return name;
        }
    }
    None
}
