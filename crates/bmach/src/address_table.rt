//! Names with their addresses.
ghost use Rattle.std.specs.Prelude.{◌≡◌, ℕ, List, [], Some, is_none, IfOk, IfSome, OnErr};
ghost use Rattle.std.specs.Bool.{OnTrue};
ghost use Rattle.blang.specs.Layout.{address_in};
ghost use Rattle.bmach.specs.Loading.{Knows};
ghost use Rattle.bmach.specs.Slots.{AreKept};

use bnames::{NameTable, Probes};
use bword::{Name, NoMemory};
use std::alloc::{AllocError, Global};
use std::marker::Model;

// For fewer names a search is short.
const FEW_NAMES: usize = 256;

// More are never loaded.
const MOST_NAMES: usize = 65536;

// The golden ratio of 2^64, which spreads names that differ in few bits.
const SPREAD: u64 = 0x9E37_79B9_7F4A_7C15;

/// Names with one address each, which contracts see as a list.
///
/// Each name has a slot, which it shares with few others. It keeps the last of them, where a search isn't needed.
#[derive(Drop)]
pub struct Addresses {
    names: NameTable,
    slots: Vec<Option<Known>>,
}

#[derive(Clone, Copy)]
struct Known {
    name: Name,
    address: u16,
}

impl Model for Addresses {
    ghost use Rattle.std.specs.Prelude.{◌<◌, ℕ, List, All};
    ghost use Rattle.std.specs.Map.{values_of};
    ghost use Rattle.bmach.specs.Slots.{AreKept};

    ghost Value = { List (List ℕ × ℕ) };

    ghost view = { λ a. a.names };

    ghost invariant = { λ a. All (λ address. address < 65536) (values_of a.names) × AreKept a.names a.slots.items };
}

impl Addresses {
    /// No names, with slots for so many.
    pub fn new(alloc: Global, count: usize) -> Addresses
        ensures { result ≡ [] }
    {
        Addresses {
            names: NameTable::new(alloc),
            slots: slots_for(alloc, count),
        }
    }

    /// Puts in a name with its address, and tells whether the name is new.
    pub fn insert(&mut self, name: Name, address: u16) -> Result<bool, NoMemory>
        ensures new { IfOk result (λ is_new. is_new ≡ is_none (address_in self.old name)) }
        ensures known { IfOk result (λ is_new. OnTrue is_new (Knows self.old name address self.new)) }
        ensures err { OnErr result (self.new ≡ self.old) }
    {
        let is_new = self.names.insert(name, u32::from(address))?;
        if is_new {
            keep(&mut self.slots, name, address);
        }
        Ok(is_new)
    }

    /// The address of a name that was put in.
    pub fn get(&self, name: &Name) -> Option<u16>
        ensures { result ≡ address_in self.now name.now }
    {
        if let Some(address) = kept(self.slots.as_slice(), name) {
            return Some(address);
        }
        let address = self.names.find(name, &mut Probes::new())?;
        Some(address as u16)
    }
}

// Empty slots, twice as many as names; none for few names, or where there is no memory for them.
fn slots_for(alloc: Global, count: usize) -> Vec<Option<Known>>
    ensures { AreKept [] result.items }
{
    if count < FEW_NAMES {
        return Vec::new(alloc);
    }
    match empty_slots(alloc, 2 * count.min(MOST_NAMES)) {
        Ok(slots) => slots,
        Err(_) => Vec::new(alloc),
    }
}

// The slot of a name among so many.
fn slot_of(name: &Name, count: usize) -> usize {
    let mut number = 0_u64;
    for byte in name.as_bytes() {
        number = number << 8 | u64::from(*byte);
    }
    let share = number.wrapping_mul(SPREAD) >> 32;
    (share.wrapping_mul(count as u64) >> 32) as usize
}

// Puts a name with its address into its slot, if there are slots.
fn keep(slots: &mut Vec<Option<Known>>, name: Name, address: u16)
    ensures { (known : List (List ℕ × ℕ)) → AreKept known slots.old.items → address_in known name ≡ Some address
        → AreKept known slots.new.items }
{
    let slot = slot_of(&name, slots.len());
    if slot < slots.len() {
        slots[slot] = Some(Known { name, address });
    }
}

// The address of a name that stands in its slot.
fn kept(slots: &[Option<Known>], name: &Name) -> Option<u16>
    ensures { (known : List (List ℕ × ℕ)) → AreKept known slots.now
        → IfSome result (λ address. address_in known name.now ≡ Some address) }
{
    match slots.get(slot_of(name, slots.len())) {
        Some(Some(known)) if known.name == *name => Some(known.address),
        _ => None,
    }
}

fn empty_slots(alloc: Global, count: usize) -> Result<Vec<Option<Known>>, AllocError>
    ensures { IfOk result (λ slots. AreKept [] slots.items) }
{
    vec![in alloc; None; count]
}
