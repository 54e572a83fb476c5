// One access of a hart to the guest's memory.
ghost use Rattle.std.specs.Prelude.{◌≡◌, ◌+◌, ◌%◌, ◌≤◌, IsTrue, nat_eq};
ghost use Rattle.std.specs.Option.{SomeIff};
ghost use Rattle.base.specs.Touch.{IsAllowed, is_access_size, is_write, word_of};

use crate::Hart;
use std::marker::Model;

/// What an access does.
#[derive(Clone, Copy, PartialEq, Eq, Debug)]
pub enum Kind {
    Read,
    Write,
}

impl Kind {
    /// Whether it writes.
    pub fn is_write(self) -> bool
        ensures { result ≡ is_write self }
    {
        match self {
            Kind::Read => false,
            Kind::Write => true,
        }
    }
}

/// An access of 1, 2 or 4 bytes, whose address is a multiple of its size: it lies in one word of 4
/// bytes.
///
/// Contracts see its fields `hart`, `addr`, `kind` and `size`.
#[derive(Clone, Copy, PartialEq, Eq, Debug)]
pub struct Access {
    hart: Hart,
    addr: u32,
    kind: Kind,
    size: u8,
}

impl Model for Access {
    ghost use Rattle.base.specs.Touch.{Touch, IsAllowed};

    ghost Value = { Touch };

    ghost view = { λ a. record { hart = a.hart; addr = a.addr; kind = a.kind; size = a.size } };

    ghost invariant = { λ a. IsAllowed (record {
      hart = a.hart;
      addr = a.addr;
      kind = a.kind;
      size = a.size;
    }) };

    ghost inverse = { λ t. record { hart = t.hart; addr = t.addr; kind = t.kind; size = t.size } };
}

// Whether an allowed size divides an address. No division is left, since each size is written out.
#[tactic(auto, using(std::proofs::lemmas::Bool::Decides::nat_tests))]
#[inline(always)]
fn is_aligned(addr: u32, size: u8) -> bool
    requires { IsTrue (is_access_size size) }
    ensures { result ≡ nat_eq (addr % size) 0 }
{
    match size {
        4 => addr % 4 == 0,
        2 => addr % 2 == 0,
        _ => true,
    }
}

impl Access {
    /// An access of `size` bytes at `addr`: None exactly where the size is not 1, 2 or 4, or does
    /// not divide the address.
    pub fn new(hart: Hart, addr: u32, kind: Kind, size: u8) -> Option<Access>
        ensures { SomeIff result (IsTrue (is_access_size size) × (addr % size ≡ 0))
            (record { hart = hart; addr = addr; kind = kind; size = size }) }
    {
        if matches!(size, 1 | 2 | 4) {
            Access::of_size(hart, addr, kind, size)
        } else {
            None
        }
    }

    /// An access of an allowed size: None exactly where that does not divide the address.
    #[inline(always)]
    pub fn of_size(hart: Hart, addr: u32, kind: Kind, size: u8) -> Option<Access>
        requires { IsTrue (is_access_size size) }
        ensures { SomeIff result (addr % size ≡ 0)
            (record { hart = hart; addr = addr; kind = kind; size = size }) }
    {
        if !is_aligned(addr, size) {
            return None;
        }
        Some(Access {
            hart,
            addr,
            kind,
            size,
        })
    }

    /// The hart that makes it.
    pub fn hart(&self) -> Hart
        ensures value { result ≡ self.now.hart }
        ensures allowed { IsAllowed self.now }
    {
        self.hart
    }

    /// The address of its first byte.
    pub fn addr(&self) -> u32
        ensures { result ≡ self.now.addr }
    {
        self.addr
    }

    /// Whether it reads or writes.
    pub fn kind(&self) -> Kind
        ensures { result ≡ self.now.kind }
    {
        self.kind
    }

    /// How many bytes it takes: 1, 2 or 4.
    pub fn size(&self) -> u8
        ensures value { result ≡ self.now.size }
        ensures sized { IsTrue (is_access_size result) }
    {
        self.size
    }

    /// The address of the word of 4 bytes that it lies in.
    pub fn word(&self) -> u32
        ensures value { result ≡ word_of self.now.addr }
        ensures begins { result ≤ self.now.addr }
        ensures ends { self.now.addr + self.now.size ≤ result + 4 }
    {
        self.addr / 4 * 4
    }
}
