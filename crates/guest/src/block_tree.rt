// The live blocks of a heap, in a search tree by address.
//
// A block knows its gap, which are the free bytes behind it up to the next block or the heap's end,
// and a node the greatest gap at or below it. So one descent finds the first gap that holds a new
// block and makes it there, and one takes a block out. The heights of a node's sides differ by one
// at most, so that each takes time that grows with the logarithm of the number of blocks. Calls that
// change a tree are lent the gap before its first block beside it.
#![tactic(auto, using(crate::proofs::MostFree::most_free_append))]

ghost use Rattle.std.specs.Prelude.{◌≡◌, ◌+◌, ◌/◌, ◌<◌, ◌≤◌, ◌^◌, [], ◌∷◌, ◌++◌, length, max, Some};
ghost use Rattle.std.specs.Prelude.{MatchOption, OnErr, IfOk};
ghost use Rattle.std.specs.Option.{option_map};
ghost use Rattle.guest.specs.LiveBlocks.{most_free, spanned, DoRise, DoFit, block_at};
ghost use Rattle.guest.specs.LiveBlocks.{first_place, filled, grown, without};
ghost use Rattle.guest.specs.TreeBlocks.{blocks_of, seen_below, IsBalanced, AreBalanced, WithinOne};
ghost use Rattle.guest.specs.TreeBlocks.{Differ, IsSettled};

use base::NoMemory;
use std::alloc::Global;
use std::marker::Model;
use std::mem;

// A block at an address, with the bytes that it takes, its number in the order of making, and how
// many bytes are free behind it.
#[derive(Clone, Copy)]
pub(crate) struct LiveBlock {
    pub(crate) addr: u32,
    pub(crate) bytes: u32,
    pub(crate) number: u32,
    pub(crate) gap: u32,
}

// Contracts see the list of the blocks in the order of addresses, and the height of the tree.
#[cycle(live)]
#[derive(Drop)]
pub(crate) struct BlockTree {
    root: Option<Box<Node>>,
}

#[cycle(live)]
#[derive(Drop)]
struct Node {
    block: LiveBlock,
    // the most bytes that are free behind a block here or below
    most: u32,
    height: u8,
    left: BlockTree,
    right: BlockTree,
}

impl Model for BlockTree {
    ghost use Rattle.std.specs.Prelude.{ℕ, List, length};
    ghost use Rattle.guest.specs.declared.block_tree.LiveBlock.{LiveBlock};

    ghost Value = { List LiveBlock × ℕ };

    ghost use Rattle.guest.specs.TreeBlocks.{seen_below, AreBalanced};

    ghost view = { λ t. seen_below t.root };

    ghost invariant = { λ t. AreBalanced t.root };

    ghost size = { λ d. length d.0 };

    ghost use Rattle.std.proofs.Common.{arith, length-append};

    ghost size_decreases = { λ a h. Prim.grind (arith, length-append) };
}

impl BlockTree {
    pub(crate) fn new() -> BlockTree
        ensures { result ≡ ([], 0) }
    {
        BlockTree { root: None }
    }

    // The most bytes that are free behind one of the blocks.
    pub(crate) fn most(&self) -> u32
        ensures { result ≡ most_free self.now.0 }
    {
        match &self.root {
            None => 0,
            Some(top) => top.most,
        }
    }

    // How many nodes stand on the longest way down. With each two more there are at least twice as
    // many blocks.
    pub(crate) fn height(&self) -> u8
        ensures height { result ≡ self.now.1 }
        ensures low { 2 ^ (self.now.1 / 2) ≤ length self.now.0 + 1 }
    {
        match &self.root {
            None => 0,
            Some(top) => top.height,
        }
    }

    // Makes a block of so many bytes in the first gap that holds them, and answers where it begins.
    // The gap before the first block begins at `at`. It takes memory for one node; where there is
    // none, nothing changes.
    pub(crate) fn insert(
        &mut self,
        alloc: Global,
        at: u32,
        gap: &mut u32,
        bytes: u32,
        number: u32,
    ) -> Result<u32, NoMemory>
        requires held { bytes ≤ max gap.old (most_free self.old.0) }
        requires rising { DoRise self.old.0 }
        requires ends { DoFit self.old.0 }
        ensures place { IfOk result (λ place. first_place bytes at gap.old self.old.0 ≡ Some place) }
        ensures gap { IfOk result (λ _. gap.new ≡ (filled bytes number at gap.old self.old.0).0) }
        ensures blocks { IfOk result
            (λ _. self.new.0 ≡ (filled bytes number at gap.old self.old.0).1) }
        ensures refused { OnErr result (self.new ≡ self.old) }
        ensures refused_gap { OnErr result (gap.new ≡ gap.old) }
    {
        let _root = &self.root;
        let block = LiveBlock {
            addr: at,
            bytes,
            number,
            gap: 0,
        };
        let node = Node {
            block,
            most: 0,
            height: 1,
            left: BlockTree::new(),
            right: BlockTree::new(),
        };
        let node = Box::new(alloc, node)?;
        Ok(self.fill(at, gap, node))
    }

    // Takes out the block that begins at an address, and answers its number. The gap before it grows
    // by the block and by the gap behind it. None where no block begins there; nothing changes then.
    pub(crate) fn remove(&mut self, gap: &mut u32, addr: u32) -> Option<u32>
        requires rising { DoRise self.old.0 }
        requires fits { gap.old + spanned self.old.0 < 2 ^ 32 }
        ensures number { result ≡ option_map (λ b. b.number) (block_at addr self.old.0) }
        ensures gap { gap.new ≡ (without addr gap.old self.old.0).0 }
        ensures blocks { self.new.0 ≡ (without addr gap.old self.old.0).1 }
        ensures height { WithinOne self.new.1 self.old.1 }
    {
        let Some(mut top) = self.take() else {
            return None;
        };
        let block = top.block;
        if addr < block.addr {
            let number = top.left.remove(gap, addr);
            *self = BlockTree::from(settled(top));
            return number;
        }
        if block.addr < addr {
            let node = &mut *top;
            let number = node.right.remove(&mut node.block.gap, addr);
            *self = BlockTree::from(settled(top));
            return number;
        }
        top.left.grow_last(gap, block.bytes + block.gap);
        let Node { left, right, .. } = Box::into_inner(top);
        *self = joined(left, right);
        Some(block.number)
    }

    fn from(top: Box<Node>) -> BlockTree
        requires { IsBalanced top.value }
        ensures { result ≡ (blocks_of top.value, top.value.height) }
    {
        BlockTree { root: Some(top) }
    }

    // Takes the top out, and all below with it.
    fn take(&mut self) -> Option<Box<Node>>
        ensures taken { (seen_below result).0 ≡ self.old.0 }
        ensures height { (seen_below result).1 ≡ self.old.1 }
        ensures balanced { AreBalanced result }
        ensures gone { self.new ≡ ([], 0) }
    {
        self.root.take()
    }

    // Puts a node's block into the first gap that holds it, and answers where.
    fn fill(&mut self, at: u32, gap: &mut u32, mut node: Box<Node>) -> u32
        requires held { node.value.block.bytes ≤ max gap.old (most_free self.old.0) }
        requires ends { DoFit self.old.0 }
        requires low { self.old.1 < 255 }
        ensures place { first_place node.value.block.bytes at gap.old self.old.0 ≡ Some result }
        ensures gap { gap.new
            ≡ (filled node.value.block.bytes node.value.block.number at gap.old self.old.0).0 }
        ensures blocks { self.new.0
            ≡ (filled node.value.block.bytes node.value.block.number at gap.old self.old.0).1 }
        ensures height { WithinOne self.old.1 self.new.1 }
    {
        let bytes = node.block.bytes;
        if bytes <= *gap {
            node.block = LiveBlock {
                addr: at,
                bytes,
                number: node.block.number,
                gap: *gap - bytes,
            };
            *gap = 0;
            self.put_first(node);
            return at;
        }
        let Some(mut top) = self.take() else {
            unreachable!()
        };
        if bytes <= top.left.most() {
            let place = top.left.fill(at, gap, node);
            *self = BlockTree::from(settled(top));
            return place;
        }
        let end = top.block.addr + top.block.bytes;
        let above = &mut *top;
        let place = above.right.fill(end, &mut above.block.gap, node);
        *self = BlockTree::from(settled(top));
        place
    }

    // Puts a node's block before all others.
    fn put_first(&mut self, mut node: Box<Node>)
        requires { self.old.1 < 255 }
        ensures blocks { self.new.0 ≡ node.value.block ∷ self.old.0 }
        ensures height { WithinOne self.old.1 self.new.1 }
    {
        let Some(mut top) = self.take() else {
            node.left = BlockTree::new();
            node.right = BlockTree::new();
            node.sum();
            *self = BlockTree::from(node);
            return;
        };
        top.left.put_first(node);
        *self = BlockTree::from(settled(top));
    }

    // Takes the first block out, with its node.
    fn take_first(&mut self) -> Option<Box<Node>>
        ensures first { MatchOption result (self.old ≡ ([], 0))
            (λ node. self.old.0 ≡ node.value.block ∷ self.new.0) }
        ensures height { WithinOne self.new.1 self.old.1 }
    {
        let mut top = self.take()?;
        match top.left.take_first() {
            Some(first) => {
                *self = BlockTree::from(settled(top));
                Some(first)
            }
            None => {
                *self = mem::replace(&mut top.right, BlockTree::new());
                Some(top)
            }
        }
    }

    // Lets the last gap grow: that behind the last block, or the one before where there is no block.
    fn grow_last(&mut self, gap: &mut u32, bytes: u32)
        requires fits { gap.old + bytes + spanned self.old.0 < 2 ^ 32 }
        ensures gap { gap.new ≡ (grown bytes gap.old self.old.0).0 }
        ensures blocks { self.new.0 ≡ (grown bytes gap.old self.old.0).1 }
        ensures height { self.new.1 ≡ self.old.1 }
    {
        let Some(mut top) = self.take() else {
            *gap += bytes;
            return;
        };
        let node = &mut *top;
        node.right.grow_last(&mut node.block.gap, bytes);
        top.sum();
        *self = BlockTree::from(top);
    }
}

impl Node {
    // Notes its height, and the most that is free.
    fn sum(&mut self)
        requires low { max self.old.left.1 self.old.right.1 < 255 }
        requires level { Differ 1 self.old.left.1 self.old.right.1 }
        ensures block { self.new.block ≡ self.old.block }
        ensures left { self.new.left ≡ self.old.left }
        ensures right { self.new.right ≡ self.old.right }
        ensures balanced { IsBalanced self.new }
    {
        self.height = self.left.height().max(self.right.height()) + 1;
        self.most = self.left.most().max(self.block.gap).max(self.right.most());
    }
}

// Turns a node whose left side is higher by two.
fn lean_right(mut top: Box<Node>) -> Box<Node>
    requires higher { top.value.left.1 ≡ top.value.right.1 + 2 }
    requires low { top.value.left.1 < 255 }
    ensures { IsSettled top.value result.value }
{
    let Some(mut left) = top.left.take() else {
        unreachable!()
    };
    if left.left.height() >= left.right.height() {
        top.left = mem::replace(&mut left.right, BlockTree::new());
        top.sum();
        left.right = BlockTree::from(top);
        left.sum();
        return left;
    }
    let Some(mut middle) = left.right.take() else {
        unreachable!()
    };
    left.right = mem::replace(&mut middle.left, BlockTree::new());
    left.sum();
    top.left = mem::replace(&mut middle.right, BlockTree::new());
    top.sum();
    middle.left = BlockTree::from(left);
    middle.right = BlockTree::from(top);
    middle.sum();
    middle
}

// Turns a node whose right side is higher by two.
fn lean_left(mut top: Box<Node>) -> Box<Node>
    requires higher { top.value.right.1 ≡ top.value.left.1 + 2 }
    requires low { top.value.right.1 < 255 }
    ensures { IsSettled top.value result.value }
{
    let Some(mut right) = top.right.take() else {
        unreachable!()
    };
    if right.right.height() >= right.left.height() {
        top.right = mem::replace(&mut right.left, BlockTree::new());
        top.sum();
        right.left = BlockTree::from(top);
        right.sum();
        return right;
    }
    let Some(mut middle) = right.left.take() else {
        unreachable!()
    };
    right.left = mem::replace(&mut middle.right, BlockTree::new());
    right.sum();
    top.right = mem::replace(&mut middle.left, BlockTree::new());
    top.sum();
    middle.right = BlockTree::from(right);
    middle.left = BlockTree::from(top);
    middle.sum();
    middle
}

// Turns a node whose sides differ in height by two, so that they differ by one at most.
fn settled(mut top: Box<Node>) -> Box<Node>
    requires near { Differ 2 top.value.left.1 top.value.right.1 }
    requires low { max top.value.left.1 top.value.right.1 < 255 }
    ensures { IsSettled top.value result.value }
{
    let (left, right) = (top.left.height(), top.right.height());
    if left > right + 1 {
        return lean_right(top);
    }
    if right > left + 1 {
        return lean_left(top);
    }
    top.sum();
    top
}

// The blocks of a tree and, behind them, those of another one.
fn joined(left: BlockTree, mut right: BlockTree) -> BlockTree
    requires level { Differ 1 left.1 right.1 }
    requires low { max left.1 right.1 < 255 }
    ensures blocks { result.0 ≡ left.0 ++ right.0 }
    ensures height { WithinOne (max left.1 right.1) result.1 }
{
    let Some(mut first) = right.take_first() else {
        return left;
    };
    first.left = left;
    first.right = right;
    BlockTree::from(settled(first))
}
