//! Names with their values, found by binary search.
ghost use Rattle.std.specs.Prelude.{◌≡◌, ℕ, ◌+◌, ◌^◌, ◌<◌, ◌≤◌, min, List, [], ◌∷◌, ◌++◌, length, take, drop, insert, MatchResult, OnOk, OnErr, IfOk, Some, None, is_none, IsTrue, MatchOption, false, slice_get, if◌then◌else◌};
ghost use Rattle.std.specs.Ordering.{nat_cmp, is_lt};
ghost use Rattle.std.specs.Cmp.Lexicographic.{slice_cmp};
ghost use Rattle.std.specs.Bool.{OnTrue};
ghost use Rattle.std.specs.Global.{Vec};
ghost use Rattle.bword.specs.ByteEnds.{most};
ghost use Rattle.bnames.specs.declared.name_table.Entry.{Entry};
ghost use Rattle.bnames.specs.NameTables.{IsFoundAt, IsGapAt, Ascends, AreFilled, IsPieceFor, AreFull, InPiece, Gains, Stays, KnowsOneMore, IsTable, BelongsAt, joined_entries, entries_of, value_in, with_name};

use bword::{Name, NoMemory};
use std::alloc::Global;
use std::cell::Cell;
use std::cmp::Ordering;
use std::marker::Model;

// The most entries of a piece, and the least of one that has another after it.
const MOST: usize = 511;

const LEAST: usize = 256;

/// How many times two names were compared.
#[derive(Drop)]
pub struct Probes {
    count: u64,
}

impl Model for Probes {
    ghost use Rattle.std.specs.Prelude.{ℕ};

    ghost Value = { ℕ };

    ghost view = { λ p. p.count };
}

impl Probes {
    /// None yet.
    pub fn new() -> Self
        ensures { result ≡ 0 }
    {
        Probes { count: 0 }
    }

    /// Their number; at the greatest one it stays.
    pub fn count(&self) -> u64
        ensures { result ≡ self.now }
    {
        self.count
    }

    // Compares two names.
    fn compare(&mut self, x: &Name, y: &Name) -> Ordering
        ensures order { result ≡ slice_cmp nat_cmp x.now y.now }
        ensures counted { self.new ≡ min (self.old + 1) most }
        ensures grows { self.old ≤ self.new }
    {
        self.count = self.count.saturating_add(1);
        x.cmp(y)
    }
}

/// A name and its value.
#[derive(Clone, Copy)]
struct Entry {
    name: Name,
    value: u32,
}

/// A place of a piece.
#[derive(Clone, Copy)]
struct Gap {
    piece: usize,
    place: usize,
}

/// Names with their values, in the order of their bytes.
///
/// They are in pieces of at most 511, of which all but the last have at least 256.
#[derive(Drop)]
pub struct NameTable {
    alloc: Global,
    pieces: Vec<Vec<Entry>>,
    len: usize,
    // Where the name that wasn't found last would stand, which is put in next as a rule. No contract speaks of it.
    gap: Cell<Gap>,
}

impl Model for NameTable {
    ghost use Rattle.std.specs.Prelude.{ℕ, List};
    ghost use Rattle.bnames.specs.NameTables.{entries_of, IsTable};

    ghost Value = { List (List ℕ × ℕ) };

    ghost view = { λ t. entries_of t.pieces.items };

    ghost invariant = { λ t. IsTable t.pieces.items t.len };
}

impl NameTable {
    /// A table without names, which takes no memory.
    pub fn new(alloc: Global) -> Self
        ensures { result ≡ [] }
    {
        NameTable {
            alloc,
            pieces: Vec::new(alloc),
            len: 0,
            gap: Cell::new(Gap { piece: 0, place: 0 }),
        }
    }

    /// How many names it has.
    pub fn len(&self) -> usize
        ensures { result ≡ length self.now }
    {
        self.len
    }

    /// The value of a name. So many probes are made at most as `len` has binary digits, and one.
    pub fn find(&self, name: &Name, probes: &mut Probes) -> Option<u32>
        ensures value { result ≡ value_in name.now self.now }
        ensures few { (digits : ℕ) → length self.now < 2 ^ digits
            → probes.new ≤ probes.old + digits + 1 }
        ensures grows { probes.old ≤ probes.new }
    {
        if self.pieces.is_empty() {
            return None;
        }
        let piece = piece_for(self.pieces.as_slice(), name, probes);
        let entries = self.pieces[piece].as_slice();
        match search(entries, name, probes) {
            Ok(place) => Some(entries[place].value),
            Err(place) => {
                self.gap.set(Gap { piece, place });
                None
            }
        }
    }

    /// Puts a name with its value in and answers true, or answers false where the name is there.
    ///
    /// If memory runs out, nothing has changed.
    pub fn insert(&mut self, name: Name, value: u32) -> Result<bool, NoMemory>
        ensures there { IfOk result (λ new. new ≡ is_none (value_in name self.old)) }
        ensures entries { IfOk result (λ new. self.new
            ≡ (if new then with_name self.old name value else self.old)) }
        ensures known { IfOk result (λ new. OnTrue new (KnowsOneMore self.old name value self.new)) }
        ensures len { IfOk result (λ new. length self.new
            ≡ (if new then length self.old + 1 else length self.old)) }
        ensures err { OnErr result (self.new ≡ self.old) }
        ensures absent { OnErr result (value_in name self.old ≡ None) }
    {
        // Only as many texts are names as can be counted, so the sum below fits.
        let _text = name.as_bytes();
        let entry = Entry { name, value };
        if self.pieces.is_empty() {
            push_piece(self.alloc, &mut self.pieces, entry)?;
            self.len = 1;
            return Ok(true);
        }
        let Some(gap) = gap_of(self.pieces.as_slice(), self.gap.get(), &name) else {
            return Ok(false);
        };
        put(self.alloc, &mut self.pieces, gap.piece, gap.place, entry)?;
        self.len += 1;
        Ok(true)
    }
}

// Where a name would stand that isn't there: at this gap if that is right, or where a search ends.
fn gap_of(pieces: &[Vec<Entry>], gap: Gap, name: &Name) -> Option<Gap>
    requires some { 0 < length pieces.now }
    requires table { IsTable pieces.now (length (joined_entries pieces.now)) }
    ensures { MatchOption result (is_none (value_in name.now (entries_of pieces.now)) ≡ false)
        (λ gap. BelongsAt pieces.now name.now gap.piece gap.place) }
{
    let mut probes = Probes::new();
    if is_between(pieces, gap, name, &mut probes) {
        return Some(gap);
    }
    let piece = piece_for(pieces, name, &mut probes);
    match search(pieces[piece].as_slice(), name, &mut probes) {
        Ok(_) => None,
        Err(place) => Some(Gap { piece, place }),
    }
}

// Whether a name is above the entry before a place, and below the one there, if the place isn't the end.
fn is_between(pieces: &[Vec<Entry>], gap: Gap, name: &Name, probes: &mut Probes) -> bool
    requires { IsTable pieces.now (length (joined_entries pieces.now)) }
    ensures { IsTrue result → BelongsAt pieces.now name.now gap.piece gap.place }
{
    let Some(piece) = pieces.get(gap.piece) else {
        return false;
    };
    let Some(last) = gap.place.checked_sub(1) else {
        return false;
    };
    let Some(before) = piece.get(last) else {
        return false;
    };
    if !probes.compare(name, &before.name).is_gt() {
        return false;
    }
    match piece.get(gap.place) {
        Some(following) => probes.compare(name, &following.name).is_lt(),
        None => gap.piece + 1 == pieces.len(),
    }
}

// Puts an entry at a place, for which memory may be refused.
fn put_at(entries: &mut Vec<Entry>, place: usize, entry: Entry) -> Result<(), NoMemory>
    requires { place ≤ length entries.old.items }
    ensures ok { OnOk result (entries.new.items ≡ insert entries.old.items place entry) }
    ensures err { OnErr result (entries.new.items ≡ entries.old.items) }
{
    if entries.push(entry).is_err() {
        return Err(NoMemory);
    }
    last_to(entries.as_mut_slice(), place);
    Ok(())
}

// Moves the last entry to a place, and those from there on up: at once, where `insert` moves one after another.
fn last_to(entries: &mut [Entry], place: usize)
    requires { place < length entries.old }
    ensures { (front : List Entry) (last : Entry) → entries.old ≡ front ++ last ∷ []
        → entries.new ≡ insert front place last }
{
    entries[place..].rotate_right(1);
}

// Puts an entry at a place of a piece, and takes the upper half of the entries off.
fn split_with(
    alloc: Global,
    entries: &mut Vec<Entry>,
    place: usize,
    entry: Entry,
) -> Result<Vec<Entry>, NoMemory>
    requires place { place ≤ length entries.old.items }
    requires full { length entries.old.items ≡ 511 }
    ensures lower { OnOk result (entries.new.items
        ≡ take 256 (insert entries.old.items place entry)) }
    ensures upper { IfOk result (λ upper. upper.items
        ≡ drop 256 (insert entries.old.items place entry)) }
    ensures err { OnErr result (entries.new.items ≡ entries.old.items) }
{
    put_at(entries, place, entry)?;
    match Vec::from_slice(alloc, &entries[LEAST..]) {
        Ok(upper) => {
            entries.truncate(LEAST);
            Ok(upper)
        }
        Err(_) => {
            entries.remove(place);
            Err(NoMemory)
        }
    }
}

// Puts an entry at a place of a piece that has room.
fn put_in(
    pieces: &mut Vec<Vec<Entry>>,
    index: usize,
    place: usize,
    entry: Entry,
) -> Result<(), NoMemory>
    requires full { AreFull pieces.old.items }
    requires within { index < length pieces.old.items }
    requires place { InPiece pieces.old.items index (λ c. place ≤ length c.items) }
    requires room { InPiece pieces.old.items index (λ c. length c.items < 511) }
    ensures ok { OnOk result (Gains pieces.old.items index place entry pieces.new.items) }
    ensures err { OnErr result (Stays pieces.old.items pieces.new.items) }
{
    put_at(&mut pieces[index], place, entry)
}

// Puts an entry into a piece of its own, after all others.
fn push_piece(alloc: Global, pieces: &mut Vec<Vec<Entry>>, entry: Entry) -> Result<(), NoMemory>
    ensures ok { OnOk result ((d : Vec Entry) × (d.items ≡ entry ∷ [])
        × (pieces.new.items ≡ pieces.old.items ++ d ∷ [])) }
    ensures err { OnErr result (pieces.new.items ≡ pieces.old.items) }
{
    let mut piece = Vec::new(alloc);
    if piece.push(entry).is_err() || pieces.push(piece).is_err() {
        return Err(NoMemory);
    }
    Ok(())
}

// Puts an entry at a place of a full piece, of which the upper half then is a piece of its own.
fn split(
    alloc: Global,
    pieces: &mut Vec<Vec<Entry>>,
    index: usize,
    place: usize,
    entry: Entry,
) -> Result<(), NoMemory>
    requires full { AreFull pieces.old.items }
    requires within { index < length pieces.old.items }
    requires place { InPiece pieces.old.items index (λ c. place ≤ length c.items) }
    requires no_room { InPiece pieces.old.items index (λ c. length c.items ≡ 511) }
    ensures ok { OnOk result (Gains pieces.old.items index place entry pieces.new.items) }
    ensures err { OnErr result (Stays pieces.old.items pieces.new.items) }
{
    if pieces.reserve(1).is_err() {
        return Err(NoMemory);
    }
    let upper = split_with(alloc, &mut pieces[index], place, entry)?;
    match pieces.insert(index + 1, upper) {
        Ok(()) => Ok(()),
        Err(_) => Err(NoMemory),
    }
}

// Puts an entry at a place of a piece.
fn put(
    alloc: Global,
    pieces: &mut Vec<Vec<Entry>>,
    index: usize,
    place: usize,
    entry: Entry,
) -> Result<(), NoMemory>
    requires full { AreFull pieces.old.items }
    requires within { index < length pieces.old.items }
    requires place { InPiece pieces.old.items index (λ c. place ≤ length c.items) }
    ensures ok { OnOk result (Gains pieces.old.items index place entry pieces.new.items) }
    ensures err { OnErr result (Stays pieces.old.items pieces.new.items) }
{
    if pieces[index].len() < MOST {
        put_in(pieces, index, place, entry)
    } else if place == MOST && index + 1 == pieces.len() {
        push_piece(alloc, pieces, entry)
    } else {
        split(alloc, pieces, index, place, entry)
    }
}

// Where a name stands among entries in order, or where it would stand.
fn search(entries: &[Entry], name: &Name, probes: &mut Probes) -> Result<usize, usize>
    requires { Ascends entries.now }
    ensures place { MatchResult result (IsFoundAt entries.now name.now)
        (IsGapAt entries.now name.now) }
    ensures few { (digits : ℕ) → length entries.now < 2 ^ digits
        → probes.new ≤ probes.old + digits }
    ensures grows { probes.old ≤ probes.new }
{
    let mut low = 0;
    let mut size = entries.len();
    while size > 0 {
        let half = size / 2;
        let place = low + half;
        match probes.compare(name, &entries[place].name) {
            Ordering::Equal => return Ok(place),
            Ordering::Greater => {
                low = place + 1;
                size -= half + 1;
            }
            Ordering::Less => size = half,
        }
    }
    Err(low)
}

// Whether a name is below the first of these entries.
fn is_before(entries: &[Entry], name: &Name, probes: &mut Probes) -> bool
    requires { 0 < length entries.now }
    ensures below { (e : Entry) → slice_get entries.now 0 ≡ Some e
        → result ≡ is_lt (slice_cmp nat_cmp name.now e.name) }
    ensures counted { probes.new ≤ probes.old + 1 }
    ensures grows { probes.old ≤ probes.new }
{
    probes.compare(name, &entries[0].name).is_lt()
}

// The last of these pieces whose first name isn't above this one, or the first piece.
fn piece_for(pieces: &[Vec<Entry>], name: &Name, probes: &mut Probes) -> usize
    requires some { 0 < length pieces.now }
    requires filled { AreFilled pieces.now }
    ensures place { IsPieceFor pieces.now name.now result }
    ensures few { (digits : ℕ) → length pieces.now ≤ 2 ^ digits
        → probes.new ≤ probes.old + digits }
    ensures grows { probes.old ≤ probes.new }
{
    let mut low = 0;
    let mut count = pieces.len();
    while count > 1 {
        let half = count / 2;
        let middle = low + half;
        if is_before(pieces[middle].as_slice(), name, probes) {
            count = half;
        } else {
            low = middle;
            count -= half;
        }
    }
    low
}
