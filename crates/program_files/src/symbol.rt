// The symbol table, and the symbols of it that are kept.
ghost use Rattle.std.specs.Prelude.{◌≡◌, ◌≤◌, ◌==◌, ℕ, List, [], ◌∷◌, length, map};
ghost use Rattle.std.specs.Prelude.{filter_map, false, true, IfSome, MatchOption};
ghost use Rattle.std.specs.List.{list_any, position, position_or_len};
ghost use Rattle.program_files.specs.Fields.{rows};
ghost use Rattle.program_files.specs.Symbols.{symbol_entry, kind_of, kept_kind, ends, name_at};
ghost use Rattle.program_files.specs.Symbols.{has_open_name, symbol_in};

use base::{u16_at, u32_at};
use objects::SymbolKind;
use std::marker::Model;

const STT_OBJECT: u8 = 1;

const STT_FUNC: u8 = 2;

// An entry of the symbol table, with the fields that are looked at.
#[derive(Clone, Copy)]
pub(crate) struct SymbolEntry {
    pub(crate) name: u32,
    pub(crate) addr: u32,
    pub(crate) size: u32,
    pub(crate) info: u8,
    pub(crate) section: u16,
}

impl SymbolEntry {
    pub(crate) fn read(row: &[u8; 16]) -> SymbolEntry
        ensures { result ≡ symbol_entry row.now }
    {
        SymbolEntry {
            name: u32_at(row, 0),
            addr: u32_at(row, 4),
            size: u32_at(row, 8),
            info: row[12],
            section: u16_at(row, 14),
        }
    }

    fn kept_kind(&self) -> Option<SymbolKind>
        ensures { result ≡ kept_kind self.now }
    {
        if self.section == 0 || self.size == 0 {
            return None;
        }
        kind_of(self.info)
    }

    fn has_open_name(&self, names: &[u8]) -> bool
        ensures { result ≡ has_open_name names.now self.now }
    {
        self.kept_kind().is_some() && !ends(names, self.name as usize)
    }
}

fn kind_of(info: u8) -> Option<SymbolKind>
    ensures { result ≡ kind_of info }
{
    match info % 16 {
        STT_OBJECT => Some(SymbolKind::Object),
        STT_FUNC => Some(SymbolKind::Function),
        _ => None,
    }
}

// Whether a zero byte stands at the place or after it.
#[tactic(auto, using(crate::proofs::Names::past_the_end))]
fn ends(names: &[u8], place: usize) -> bool
    ensures { result ≡ ends names.now place }
{
    if place > names.len() {
        return false;
    }
    let (_, rest) = names.split_at(place);
    rest.contains(&0)
}

fn first_zero(bytes: &[u8]) -> Option<usize>
    ensures { result ≡ position (λ b. b == 0) bytes.now }
{
    bytes.iter().position(|byte| *byte == 0)
}

// How many bytes stand before the first zero byte.
#[tactic(auto, using(crate::proofs::Names::zero_or_end, crate::proofs::Names::zero_within))]
fn length_before_zero(bytes: &[u8]) -> usize
    ensures value { result ≡ position_or_len (λ b. b == 0) bytes.now }
    ensures within { result ≤ length bytes.now }
{
    first_zero(bytes).unwrap_or(bytes.len())
}

#[tactic(auto, using(crate::proofs::Names::begins_inside))]
fn name_at(names: &[u8], place: usize) -> &[u8]
    requires { ends names.now place ≡ true }
    ensures { result.now ≡ name_at names.now place }
{
    let (_, rest) = names.split_at(place);
    let (name, _) = rest.split_at(length_before_zero(rest));
    name
}

// The rows of the symbol table, and the bytes among which the names stand.
#[derive(Clone, Copy)]
pub(crate) struct SymbolRows<'a> {
    pub(crate) rows: &'a [[u8; 16]],
    pub(crate) names: &'a [u8],
}

impl<'a> SymbolRows<'a> {
    pub(crate) fn some_open_name(&self) -> bool
        ensures { result ≡ list_any (has_open_name self.now.names.now)
            (map symbol_entry self.now.rows.now) }
    {
        self.rows
            .iter()
            .map(SymbolEntry::read)
            .any(|symbol| symbol.has_open_name(self.names))
    }
}

/// A symbol of a program file.
#[derive(Clone, Copy, Debug)]
pub struct SymbolView<'a> {
    /// Its name, of any length and without a zero byte.
    pub name: &'a [u8],
    /// Its first address.
    pub addr: u32,
    /// How many bytes it has, more than 0.
    pub size: u32,
    /// What it names.
    pub kind: SymbolKind,
}

/// The symbols of a program file that are kept, in the order of its symbol table.
///
/// Contracts see the list of the symbols that are left.
#[derive(Drop)]
pub struct Symbols<'a> {
    rows: &'a [[u8; 16]],
    names: &'a [u8],
}

impl<'a> Model for Symbols<'a> {
    ghost use Rattle.std.specs.Prelude.{List, ◌≡◌, map, filter_map, false};
    ghost use Rattle.std.specs.List.{list_any};
    ghost use Rattle.objects.specs.Symbols.{Symbol};
    ghost use Rattle.program_files.specs.Symbols.{symbol_entry, symbol_in, has_open_name};

    ghost Value = { List Symbol };

    ghost view = { λ s. filter_map (symbol_in s.names.now) (map symbol_entry s.rows.now) };

    ghost invariant = { λ s. list_any (has_open_name s.names.now)
        (map symbol_entry s.rows.now) ≡ false };
}

impl<'a> Symbols<'a> {
    // Those of all rows, whose names end.
    pub(crate) fn of(rows: &'a [[u8; 16]], names: &'a [u8]) -> Symbols<'a>
        requires { list_any (has_open_name names.now) (map symbol_entry rows.now) ≡ false }
        ensures { result ≡ filter_map (symbol_in names.now) (map symbol_entry rows.now) }
    {
        Symbols { rows, names }
    }
}

// The first entry that is kept, its kind, and the rows behind it.
struct KeptSymbol<'a> {
    entry: SymbolEntry,
    kind: SymbolKind,
    rest: &'a [[u8; 16]],
}

fn next_kept<'a>(rows: &'a [[u8; 16]]) -> Option<KeptSymbol<'a>>
    ensures none { (names : List ℕ) → MatchOption result
        (filter_map (symbol_in names) (map symbol_entry rows.now) ≡ [])
        (λ k. filter_map (symbol_in names) (map symbol_entry rows.now)
        ≡ (record {
          kind = k.kind;
          addr = k.entry.addr;
          size = k.entry.size;
          name = name_at names k.entry.name;
        }) ∷ filter_map (symbol_in names)
        (map symbol_entry k.rest.now)) }
    ensures ended { IfSome result (λ k. (names : List ℕ)
        → list_any (has_open_name names) (map symbol_entry rows.now) ≡ false
        → (ends names k.entry.name ≡ true) × (list_any (has_open_name names)
        (map symbol_entry k.rest.now) ≡ false)) }
{
    let mut rest = rows;
    while let Some((row, others)) = rest.split_first() {
        rest = others;
        let entry = SymbolEntry::read(row);
        if let Some(kind) = entry.kept_kind() {
            return Some(KeptSymbol { entry, kind, rest });
        }
    }
    None
}

impl<'a> Iterator for Symbols<'a> {
    type Item = SymbolView<'a>;

    ghost use Rattle.std.specs.Iterator.{YieldsFirstBy, item_count};
    ghost use Rattle.program_files.specs.SymbolViews.{symbol_shown};

    ghost next_gives = { YieldsFirstBy symbol_shown (λ s. s) };

    ghost remaining = { item_count (λ s. s) };

    fn next(&mut self) -> Option<SymbolView<'a>> {
        let KeptSymbol { entry, kind, rest } = next_kept(self.rows)?;
        self.rows = rest;
        Some(SymbolView {
            name: name_at(self.names, entry.name as usize),
            addr: entry.addr,
            size: entry.size,
            kind,
        })
    }
}
