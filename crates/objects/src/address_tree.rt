// Rows of a table, found by where their bytes lie: by rising first address, as a tree whose root
// is the middle row. The part to the left of a root and the part to its right are trees again.
ghost use Rattle.std.specs.Prelude.{◌≡◌, ◌∷◌, ◌++◌, [], IfOk, IsTrue, List, OnOk, length, map};
ghost use Rattle.std.specs.List.{list_all};
ghost use Rattle.std.specs.List.Sorted.{IsNonDecreasingBy, IsPermutation};
ghost use Rattle.objects.specs.AddressTrees.{Extent, IsTree, ends_by, extent_of};
ghost use Rattle.objects.specs.AddressTrees.{numbers_on};

use std::alloc::{AllocError, Global};

/// A row of a table.
#[derive(Clone, Copy)]
pub struct Node {
    /// Its first address.
    pub addr: u32,
    /// How many bytes it has.
    pub size: u32,
    /// Its number in the table.
    pub number: usize,
    /// As the root of a part, how far the part reaches: no row of it ends above.
    pub reach: u64,
}

impl Node {
    ghost use Rattle.std.specs.Prelude.{◌+◌};
    ghost use Rattle.objects.specs.AddressTrees.{meets};

    // Where its bytes end.
    fn end(&self) -> u64
        ensures { result ≡ self.now.addr + self.now.size }
    {
        u64::from(self.addr) + u64::from(self.size)
    }

    // Whether it has one of the addresses from `from` on and below `to`.
    fn meets(&self, from: u64, to: u64) -> bool
        ensures { result ≡ meets from to self.now.addr self.now.size }
    {
        from.max(u64::from(self.addr)) < to.min(self.end())
    }
}

/// Puts a row behind the others, with the next number.
pub fn push_node(nodes: &mut Vec<Node>, addr: u32, size: u32) -> Result<(), AllocError>
    ensures { OnOk result (map extent_of nodes.new.items
        ≡ map extent_of nodes.old.items
        ++ record { number = length nodes.old.items; addr = addr; size = size } ∷ []) }
{
    let number = nodes.len();
    nodes.push(Node {
        addr,
        size,
        number,
        reach: 0,
    })?;
    Ok(())
}

// Notes at each root how far its part reaches, and says so of the whole.
fn note_reach(nodes: &mut [Node]) -> u64
    requires { IsNonDecreasingBy (λ n. n.addr) nodes.old }
    ensures tree { IsTree nodes.new }
    ensures reach { IsTrue (list_all (ends_by result) nodes.new) }
    ensures same { map extent_of nodes.new ≡ map extent_of nodes.old }
{
    if nodes.is_empty() {
        return 0;
    }
    let middle = nodes.len() / 2;
    let (left, rest) = nodes.split_at_mut(middle);
    let low = note_reach(left);
    match rest.split_first_mut() {
        None => low,
        Some((root, right)) => {
            let high = note_reach(right);
            let reach = root.end().max(low).max(high);
            root.reach = reach;
            reach
        }
    }
}

// Makes a tree of rows.
fn make_tree(nodes: &mut [Node])
    ensures tree { IsTree nodes.new }
    ensures same { IsPermutation (map extent_of nodes.old) (map extent_of nodes.new) }
{
    nodes.sort_unstable_by_key(|node| node.addr);
    note_reach(nodes);
}

/// The tree of some rows.
pub fn tree_of(nodes: Vec<Node>) -> Vec<Node>
    ensures tree { IsTree result.items }
    ensures same { IsPermutation (map extent_of nodes.items) (map extent_of result.items) }
{
    let mut nodes = nodes;
    make_tree(nodes.as_mut_slice());
    nodes
}

// Puts the number of a row behind others, if the row meets the addresses.
fn push_number(found: &mut Vec<usize>, node: Node, from: u64, to: u64) -> Result<(), AllocError>
    ensures { OnOk result (found.new.items
        ≡ found.old.items ++ numbers_on from to (extent_of node ∷ [])) }
{
    if node.meets(from, to) {
        found.push(node.number)?;
    }
    Ok(())
}

// Puts the numbers of the rows of a part that meet the addresses behind others.
fn push_numbers(
    found: &mut Vec<usize>,
    nodes: &[Node],
    from: u64,
    to: u64,
) -> Result<(), AllocError>
    requires { IsTree nodes.now }
    ensures { OnOk result (found.new.items
        ≡ found.old.items ++ numbers_on from to (map extent_of nodes.now)) }
{
    if nodes.is_empty() {
        return Ok(());
    }
    let middle = nodes.len() / 2;
    let root = nodes[middle];
    if root.reach <= from {
        return Ok(());
    }
    push_numbers(found, &nodes[..middle], from, to)?;
    if to <= u64::from(root.addr) {
        return Ok(());
    }
    push_number(found, root, from, to)?;
    push_numbers(found, &nodes[middle + 1..], from, to)
}

/// The numbers of the rows of a table that meet the addresses from `from` on and below `to`, in
/// the table's order; the nodes are the tree of its rows.
pub fn found_on(alloc: Global, nodes: &[Node], from: u64, to: u64) -> Result<Vec<usize>, AllocError>
    requires { IsTree nodes.now }
    ensures { IfOk result (λ found. (rows : List Extent)
        → IsPermutation rows (map extent_of nodes.now)
        → IsNonDecreasingBy (λ row. row.number) rows
        → found.items ≡ numbers_on from to rows) }
{
    let mut found = Vec::new(alloc);
    push_numbers(&mut found, nodes, from, to)?;
    found.sort_unstable();
    Ok(found)
}
