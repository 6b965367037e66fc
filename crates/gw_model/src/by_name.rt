ghost use Rattle.std.specs.Prelude.{◌≡◌, ◌<◌, ◌≤◌, ℕ, List, Some, None, if◌then◌else◌, length, replicate, IfOk, OnOk, option_copied, bit_and};
ghost use Rattle.std.specs.Str.{bytes_eq};
ghost use Rattle.std.specs.BTreeMap as tree;
ghost use Rattle.std.specs.Ordering.{nat_cmp};
ghost use Rattle.std.specs.Cmp.Lexicographic.{slice_cmp};
ghost use Rattle.gw_names.specs.Heads.{mark_of};

use gw_names::Name;
use std::alloc::{AllocError, Global};
use std::collections::BTreeMap;

// The fewest slots, and the most, powers of two.
const FEWEST: usize = 16;

const MOST: usize = 8_192;

/// A value for each of some names, to be looked up at each step.
#[derive(Drop)]
pub struct ByName<T> {
    /// In each slot the first name whose mark chose it, if any did.
    pub slots: Vec<Option<Named<T>>>,
    /// All others.
    pub many: BTreeMap<Name, T>,
    /// One less than the number of slots, which is a power of two: these bits of a mark choose the slot.
    pub mask: u64,
    pub ghost within: { mask < length slots.items },
}

/// A name and its value.
#[derive(Drop)]
pub struct Named<T> {
    pub name: Name,
    pub value: T,
}

impl<T: Drop> ByName<T> {
    ghost use Rattle.gw_model.specs.ByName.{value_of};

    /// The values of a map.
    pub fn from_map(alloc: Global, map: BTreeMap<Name, T>) -> Result<ByName<T>, AllocError>
        ensures { IfOk result (λ t. (name : List ℕ) → value_of t name ≡ tree.get (slice_cmp nat_cmp) map name) }
    {
        let mut values = ByName::empty(alloc, slots_for(map.len()))?;
        let mut rest = map;
        while let Some((name, value)) = rest.pop_first() {
            values.add(name, value)?;
        }
        Ok(values)
    }

    // No name has a value.
    fn empty(alloc: Global, count: usize) -> Result<ByName<T>, AllocError>
        requires { 0 < count }
        ensures { IfOk result (λ t. (name : List ℕ) → value_of t name ≡ None) }
    {
        Ok(ByName {
            slots: empty_slots(alloc, count)?,
            many: BTreeMap::new(alloc),
            mask: count as u64 - 1,
        })
    }

    // Gives a value to a name that has none: in its slot, or in the map where another name lies there.
    fn add(&mut self, name: Name, value: T) -> Result<(), AllocError>
        requires { value_of self.old name ≡ None }
        ensures { OnOk result ((other : List ℕ) → value_of self.new other ≡
            (if bytes_eq name other then Some value else value_of self.old other)) }
    {
        let slot = slot_of(&name, self.mask);
        if self.slots[slot].is_some() {
            self.many.insert(name, value)?;
        } else {
            self.slots[slot] = Some(Named { name, value });
        }
        Ok(())
    }
}

impl<T> ByName<T> {
    ghost use Rattle.gw_model.specs.ByName.{value_of};

    /// The value of a name.
    #[inline(always)]
    pub fn get(&self, name: &Name) -> Option<&T>
        ensures { option_copied result ≡ value_of self.now name.now }
    {
        if let Some(named) = &self.slots[slot_of(name, self.mask)] {
            if named.name == *name {
                return Some(&named.value);
            }
        }
        if self.many.is_empty() {
            return None;
        }
        self.get_behind(name)
    }

    // The value of a name that does not lie in its slot.
    #[cold]
    #[inline(never)]
    fn get_behind(&self, name: &Name) -> Option<&T>
        ensures { option_copied result ≡ tree.get (slice_cmp nat_cmp) self.now.many name.now }
    {
        self.many.get(name)
    }
}

// The slot of a name.
#[inline(always)]
fn slot_of(name: &Name, mask: u64) -> usize
    ensures value { result ≡ bit_and (mark_of name.now) mask }
    ensures within { result ≤ mask }
{
    (name.mark() & mask) as usize
}

// A power of two: four slots for each name or more, from the fewest to the most.
fn slots_for(names: usize) -> usize
    ensures { 0 < result }
{
    (names.min(MOST / 4) * 4).next_power_of_two().max(FEWEST)
}

// Slots in which no name lies.
fn empty_slots<T: Drop>(alloc: Global, count: usize) -> Result<Vec<Option<Named<T>>>, AllocError>
    ensures { IfOk result (λ slots. slots.items ≡ replicate count None) }
{
    let mut slots = Vec::with_capacity(alloc, count)?;
    for _ in 0..count {
        slots.push(None)?;
    }
    Ok(slots)
}
