// The invalidations of a list of accesses, where they are and where a plan moves them.
ghost use Rattle.std.specs.Prelude.{◌≡◌, ◌+◌, ◌<◌, ◌≤◌, ◌^◌, ◌&&◌, [], ◌∷◌, ◌++◌, if◌then◌else◌};
ghost use Rattle.std.specs.Prelude.{IfOk, IsTrue, OnErr, OnOk, int_le, pos, ◌+ℤ◌, ◌-ℤ◌};
ghost use Rattle.base.specs.Lines.{is_line_size, line_number};
ghost use Rattle.sharing_rules.specs.AccessLists.{AccessList};
ghost use Rattle.placement.specs.Plans.{moved};
ghost use Rattle.placement.specs.Recounts.{is_line_in, is_of_many as is_for_many};

use crate::plan::Plan;
use crate::sums::Sums;
use base::{Access, NoMemory, Range};
use layout_sweep::LineCounts;
use std::alloc::Global;

/// Counts the accesses of a list once where they are and once where a plan moves them, under lines
/// of one size, and of the second count what the lines of many harts have.
#[derive(Drop)]
pub struct Recount {
    size: u32,
    plan: Plan,
    before: LineCounts,
    after: LineCounts,
    many: u64,
    position: u64,
    pub ghost sized: { IsTrue (is_line_size size) },
    pub ghost each: { (before.size ≡ size) × (after.size ≡ size) },
    pub ghost few: { (before.total ≤ position) × (after.total ≤ position) × (many ≤ position) },
}

// Whether the bytes before an address, so many, lie in a range.
#[inline]
fn ends_in(size: u32, range: Range, end: u64) -> bool
    requires few { size ≤ 1024 }
    requires small { end ≤ 2 ^ 42 }
    ensures { result ≡ (int_le range.base (pos end -ℤ pos size)
        && int_le (pos end) (range.base +ℤ pos range.size)) }
{
    let end = end.cast_signed();
    range.base <= end - i64::from(size) && end <= range.base + i64::from(range.size)
}

// Whether line `line` of so many bytes lies in a range.
#[inline]
fn lies_in(size: u32, range: Range, line: u64) -> bool
    requires few { size ≤ 1024 }
    requires small { line ≤ 2 ^ 32 }
    ensures { result ≡ is_line_in size range line }
{
    ends_in(size, range, line * u64::from(size))
}

// The number of an address's line.
#[inline]
fn line_of(size: u32, addr: u32) -> u64
    requires some { 0 < size }
    ensures value { result ≡ line_number size 0 addr }
    ensures small { result ≤ 2 ^ 32 }
{
    let size = u64::from(size);
    (u64::from(addr) + size) / size
}

// Whether an address's line is one of the lines of many harts.
#[inline]
fn is_of_many(plan: &Plan, size: u32, addr: u32) -> bool
    requires some { 0 < size }
    requires few { size ≤ 1024 }
    ensures { result ≡ is_for_many size plan.now addr }
{
    match plan.many() {
        Some(range) => lies_in(size, range, line_of(size, addr)),
        None => false,
    }
}

// One more, if a line of many harts was taken.
#[inline(always)]
fn count_many(many: &mut u64, taken: bool, plan: &Plan, size: u32, addr: u32)
    requires some { 0 < size }
    requires short { size ≤ 1024 }
    requires few { many.old < 2 ^ 60 }
    ensures value { many.new ≡ (if taken && is_for_many size plan.now addr
        then many.old + 1 else many.old) }
    ensures few { many.new ≤ many.old + 1 }
{
    if taken && is_of_many(plan, size, addr) {
        *many += 1;
    }
}

impl Recount {
    ghost use Rattle.layout_sweep.specs.Standing.{CanNote};
    ghost use Rattle.placement.specs.Passing.{BeginsEither, HasRecounted, RecountsFor, begins_at};
    ghost use Rattle.placement.specs.Texts.{sums_of};

    /// No access so far, under lines of a power of two from 4 to 1024 bytes.
    pub fn new(alloc: Global, size: u32, plan: Plan) -> Result<Recount, NoMemory>
        requires { IsTrue (is_line_size size) }
        ensures size { IfOk result (λ recount. recount.size ≡ size) }
        ensures plan { IfOk result (λ recount. recount.plan ≡ plan) }
        ensures stands { IfOk result (RecountsFor []) }
        ensures begins { IfOk result (λ recount. begins_at recount 0) }
        ensures fresh { IfOk result (λ recount. HasRecounted recount recount []) }
    {
        Ok(Recount {
            size,
            plan,
            before: LineCounts::new(alloc, size),
            after: LineCounts::new(alloc, size),
            many: 0,
            position: 0,
        })
    }

    /// How many bytes a line has.
    pub fn size(&self) -> u32
        ensures { result ≡ self.now.size }
    {
        self.size
    }

    /// Where the accesses are moved.
    pub fn plan(&self) -> &Plan
        ensures { result.now ≡ self.now.plan }
    {
        &self.plan
    }

    /// The invalidations so far.
    pub fn sums(&self) -> Sums
        ensures { (t : AccessList) → RecountsFor t self.now
            → result ≡ sums_of self.now.size self.now.plan t }
    {
        Sums {
            before: self.before.total(),
            after: self.after.total(),
            many: self.many,
        }
    }

    // Makes what an access needs, here and there.
    #[inline(always)]
    fn make_room(&mut self, access: Access, there: Access) -> Result<(), NoMemory>
        ensures before { OnOk result (CanNote self.new.before access) }
        ensures after { OnOk result (CanNote self.new.after there) }
        ensures same { (t : AccessList) → RecountsFor t self.old → RecountsFor t self.new }
        ensures position { self.new.position ≡ self.old.position }
        ensures size { self.new.size ≡ self.old.size }
        ensures plan { self.new.plan ≡ self.old.plan }
        ensures known { (t : AccessList) → RecountsFor t self.old
            → OnErr result (BeginsEither self.old.size self.old.plan t access there) }
    {
        match self.before.make_room(access) {
            Ok(()) => self.after.make_room(there),
            Err(refused) => Err(refused),
        }
    }

    // Counts an access that there is room for, here and there.
    #[inline(always)]
    fn count(&mut self, access: Access, there: Access)
        requires early { self.old.position < 2 ^ 40 }
        requires before { CanNote self.old.before access }
        requires after { CanNote self.old.after there }
        requires moved { there ≡ moved self.old.plan access }
        ensures stands { (t : AccessList) → RecountsFor t self.old
            → RecountsFor (t ++ access ∷ []) self.new }
        ensures position { self.new.position ≡ self.old.position + 1 }
        ensures size { self.new.size ≡ self.old.size }
        ensures plan { self.new.plan ≡ self.old.plan }
    {
        self.position += 1;
        self.before.note(access);
        let taken = self.after.note(there);
        count_many(&mut self.many, taken, &self.plan, self.size, there.addr());
    }

    /// Counts the next access, before position 2^40. It takes memory only for the first write of its
    /// line, here or there. NoMemory leaves every meaning as it was.
    #[inline]
    pub fn note(&mut self, access: Access) -> Result<(), NoMemory>
        requires { self.old.position < 2 ^ 40 }
        ensures stands { (t : AccessList) → RecountsFor t self.old
            → OnOk result (RecountsFor (t ++ access ∷ []) self.new) }
        ensures next { OnOk result (self.new.position ≡ self.old.position + 1) }
        ensures still { (t : AccessList) → RecountsFor t self.old
            → OnErr result (RecountsFor t self.new) }
        ensures same { OnErr result (self.new.position ≡ self.old.position) }
        ensures size { self.new.size ≡ self.old.size }
        ensures plan { self.new.plan ≡ self.old.plan }
        ensures known { (t : AccessList) → RecountsFor t self.old
            → OnErr result (BeginsEither self.old.size self.old.plan t access
            (moved self.old.plan access)) }
    {
        let there = self.plan.moved(access);
        match self.make_room(access, there) {
            Ok(()) => {
                self.count(access, there);
                Ok(())
            }
            Err(refused) => Err(refused),
        }
    }
}
