// Who touches the words of an object.
ghost use Rattle.std.specs.Prelude.{◌≡◌, ◌/◌, ◌<◌, ◌≤◌, ◌^◌, [], ◌∷◌, ◌++◌, IfOk, Some};
ghost use Rattle.std.specs.Prelude.{length, map, max, slice_get, slice_set};
ghost use Rattle.sharing_rules.specs.AccessLists.{AccessList};
ghost use Rattle.sharing_rules.specs.Places.{below};
ghost use Rattle.sharing_rules.specs.Words.{note_owner};
ghost use Rattle.sharing_rules.specs.declared.word.Owner.{Owner as Own};
ghost use Rattle.sharing_rules.specs.declared.word.Owner.TheVariants as owner;
ghost use Rattle.placement.specs.Words.{owned_of, owner_at, owners_of, word_count};

use crate::extent::Extent;
use base::{Access, Hart, NoMemory};
use sharing_rules::Owner;
use std::alloc::Global;
use std::marker::Model;

/// Who touches each word of an object, and where the accesses end.
///
/// Contracts see the object, the owners of its words in their order, and the end.
#[derive(Drop)]
pub struct Owners {
    extent: Extent,
    owners: Vec<Owner>,
    end: u64,
}

impl Model for Owners {
    ghost use Rattle.std.specs.Prelude.{◌≡◌, ◌≤◌, ◌^◌, length};
    ghost use Rattle.placement.specs.Words.{Owned, word_count};

    ghost Value = { Owned };

    ghost view = { λ o. record { extent = o.extent; owners = o.owners.items; end = o.end } };

    ghost invariant = { λ o. (length o.owners.items ≡ word_count o.extent) × (o.end ≤ 2 ^ 32)
        × (o.extent.size ≤ 2 ^ 24) };
}

/// The number of its first word.
#[inline(always)]
pub(crate) fn first_word(extent: Extent) -> u32
    ensures value { result ≡ Rattle.placement.specs.Words.first_word extent }
    ensures small { result < 2 ^ 30 }
{
    extent.addr / 4
}

// The number behind its last word.
#[inline(always)]
fn past_word(extent: Extent) -> u32
    ensures value { result ≡ Rattle.placement.specs.Words.past_word extent }
    ensures small { result ≤ 2 ^ 30 }
    ensures some { extent.addr / 4 ≤ result }
{
    let end = (u64::from(extent.addr) + u64::from(extent.size) + 3) / 4;
    if end < 1 << 30 { end as u32 } else { 1 << 30 }
}

/// Which word of an object begins at an address, if one does.
#[inline(always)]
pub(crate) fn index_of(extent: Extent, word: u32) -> Option<usize>
    ensures { result ≡ Rattle.placement.specs.Words.index_of extent word }
{
    let first = first_word(extent);
    let past = past_word(extent);
    if word % 4 == 0 && first <= word / 4 && word / 4 < past {
        Some((word / 4 - first) as usize)
    } else {
        None
    }
}

// So many words that no one touches.
#[tactic(auto, using(line_tracks::specs::Laws::Words::map_below_same))]
fn untouched(alloc: Global, count: usize) -> Result<Vec<Owner>, NoMemory>
    ensures { IfOk result (λ owners. owners.items ≡ map (λ i. owner.None) (below count)) }
{
    Ok(vec![in alloc; Owner::None; count]?)
}

// One access more, of one of the words or elsewhere.
#[inline(always)]
fn note_word(owners: &mut Vec<Owner>, extent: Extent, access: Access)
    requires each { length owners.old.items ≡ word_count extent }
    ensures each { length owners.new.items ≡ word_count extent }
    ensures of_list { (t : AccessList) → owners.old.items ≡ owners_of extent t
        → owners.new.items ≡ owners_of extent (t ++ access ∷ []) }
{
    if let Some(index) = index_of(extent, access.word()) {
        note_at(owners, index, access.hart());
    }
}

// One access of a word more.
#[inline(always)]
fn note_at(owners: &mut Vec<Owner>, index: usize, hart: Hart)
    ensures noted { (o : Own) → slice_get owners.old.items index ≡ Some o
        → owners.new.items ≡ slice_set owners.old.items index (note_owner o hart) }
    ensures long { length owners.new.items ≡ length owners.old.items }
{
    if let Some(owner) = owners.get_mut(index) {
        owner.note(hart);
    }
}

// The later of two ends.
#[inline(always)]
fn later(end: u64, other: u64) -> u64
    ensures { result ≡ max end other }
{
    if end < other { other } else { end }
}

impl Owners {
    /// The words of the object at an address, of 1 to 2^24 bytes, with no access yet. NoMemory comes
    /// only where there is no memory for them.
    pub fn new(alloc: Global, addr: u32, size: u32) -> Result<Owners, NoMemory>
        requires some { 1 ≤ size }
        requires few { size ≤ 2 ^ 24 }
        ensures { IfOk result (λ owners.
            owners ≡ owned_of (record { addr = addr; size = size }) []) }
    {
        let extent = Extent { addr, size };
        let count = (past_word(extent) - first_word(extent)) as usize;
        let owners = untouched(alloc, count)?;
        Ok(Owners {
            extent,
            owners,
            end: 0,
        })
    }

    /// One access more. It takes no memory.
    #[inline(always)]
    pub fn note(&mut self, access: Access)
        // where they are the owners of a list, they are those of the list with the access
        ensures { (t : AccessList) → self.old ≡ owned_of self.old.extent t
            → self.new ≡ owned_of self.old.extent (t ++ access ∷ []) }
    {
        note_word(&mut self.owners, self.extent, access);
        self.end = later(self.end, u64::from(access.word()) + 4);
    }

    /// The owner of the word that begins at an address: None exactly where it is none of the
    /// object's.
    pub fn owner(&self, word: u32) -> Option<Owner>
        ensures { result ≡ owner_at self.now word }
    {
        match index_of(self.extent, word) {
            Some(index) => self.owners.get(index).copied(),
            None => None,
        }
    }

    /// Where the greatest word ends that was accessed, or 0.
    pub fn end(&self) -> u64
        ensures value { result ≡ self.now.end }
        ensures small { result ≤ 2 ^ 32 }
    {
        self.end
    }

    /// Where the object lies.
    pub fn extent(&self) -> Extent
        ensures value { result ≡ self.now.extent }
        ensures count { length self.now.owners ≡ word_count result }
    {
        self.extent
    }

    /// The owners of its words, in their order.
    pub fn owners(&self) -> &[Owner]
        ensures value { result.now ≡ self.now.owners }
        ensures few { length result.now ≤ 2 ^ 23 }
    {
        self.owners.as_slice()
    }
}
