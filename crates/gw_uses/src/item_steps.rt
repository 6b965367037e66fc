ghost use Rattle.std.specs.Prelude.{◌≡◌, ◌<◌, [], Some, None, if◌then◌else◌, IfOk, OnOk, OnErr, nat_lt, IsTrue, IsSome};
ghost use Rattle.gw_meaning.specs.declared.item.Item.{Item};
ghost use Rattle.gw_meaning.specs.declared.item.Item.TheVariants as items;
ghost use Rattle.gw_meaning.specs.Reads.{same_item, or_later};
ghost use Rattle.gw_uses.specs.Asks.{answers_differ, differs, earlier, is_ask, is_other, least_in};
ghost use Rattle.gw_uses.specs.Steps.{step_of, below};
ghost use Rattle.std.specs.List.{IsDistinct};
ghost use Rattle.std.specs.Map.{keys_of};

use gw_meaning::{Asked, Item};
use gw_names::Name;
use indexmap::IndexMap;
use std::alloc::{AllocError, Global};
use std::marker::Model;

// How many slots there are.
const SLOTS: usize = 2_048;

// The marks of two amounts of a storage lie so far apart, since those of names that end in numbers are neighbours.
const APART: u64 = 1_267;

/// For each item of any kind the first step that used it, if any did, in the order in which they were noted.
#[derive(Drop)]
pub struct ItemSteps {
    steps: IndexMap<Item, u64>,
    // Where an item was found last, by the mark of its question: it is looked for there first. There are none before the
    // first item is noted.
    slots: Vec<u16>,
}

impl Model for ItemSteps {
    ghost use Rattle.std.specs.Prelude.{List, ℕ};
    ghost use Rattle.std.specs.List.{IsDistinct};
    ghost use Rattle.std.specs.Map.{keys_of};
    ghost use Rattle.gw_meaning.specs.declared.item.Item.{Item};
    ghost use Rattle.gw_meaning.specs.Reads.{same_item};

    ghost Value = { List (Item × ℕ) };

    ghost view = { λ m. m.steps.entries };

    ghost invariant = { λ m. IsDistinct same_item (keys_of m.steps.entries) };
}

impl ItemSteps {
    /// Nothing used yet.
    pub fn new(alloc: Global) -> ItemSteps
        ensures { result ≡ [] }
    {
        ItemSteps {
            steps: IndexMap::new(alloc),
            slots: Vec::new(alloc),
        }
    }

    /// The same first steps, in the order in which they were noted.
    pub fn copy(&self) -> Result<ItemSteps, AllocError>
        ensures { IfOk result (λ m. m ≡ self.now) }
    {
        let mut steps = IndexMap::with_capacity(*self.steps.allocator(), self.steps.len())?;
        for i in 0..self.steps.len() {
            match self.steps.get_index(i) {
                Some((item, step)) => {
                    let _ = steps.insert(item.clone()?, *step)?;
                }
                None => unreachable!(),
            }
        }
        let slots = Vec::from_slice(*self.slots.allocator(), self.slots.as_slice())?;
        Ok(ItemSteps { steps, slots })
    }

    /// The first step that used this item, if any did.
    pub fn get(&self, item: &Item) -> Option<u64>
        ensures { result ≡ step_of self.now item.now }
    {
        match self.steps.get(item) {
            Some(step) => Some(*step),
            None => None,
        }
    }

    /// The first step that asked of the storage of this name an amount that two capacities answer in two ways, or the
    /// capacity where it is another one, if any did. Without a storage before or after it is any amount.
    pub fn first_ask(&self, name: &Name, from: Option<u64>, to: Option<u64>) -> Option<u64>
        ensures least { result ≡ least_in (is_ask name.now from to) self.now }
        ensures apart { IsDistinct same_item (keys_of self.now) }
    {
        let mut first = None;
        for i in 0..self.steps.len() {
            match self.steps.get_index(i) {
                Some((item, step)) => {
                    first = earlier(first, asked_at(name, from, to, item, *step));
                }
                None => unreachable!(),
            }
        }
        first
    }

    /// Notes that a step used this item, unless one is noted already, which takes no memory. Where memory is refused,
    /// nothing changes.
    pub fn note(&mut self, item: &Item, step: u64) -> Result<(), AllocError>
        ensures ok { OnOk result ((q : Item) →
            step_of self.new q ≡ or_later (step_of self.old q) (if same_item item.now q then Some step else None)) }
        ensures err { OnErr result (self.new ≡ self.old) }
    {
        let slot = slot_of(mark_without_name(item));
        if self.is_at(self.place_in(slot), item) {
            return Ok(());
        }
        self.note_at(item, step, slot)
    }

    // Notes that a step used this item, which its slot did not tell.
    #[inline(never)]
    fn note_at(&mut self, item: &Item, step: u64, slot: usize) -> Result<(), AllocError>
        requires { slot < 2048 }
        ensures ok { OnOk result ((q : Item) →
            step_of self.new q ≡ or_later (step_of self.old q) (if same_item item.now q then Some step else None)) }
        ensures err { OnErr result (self.new ≡ self.old) }
    {
        if self.slots.len() < SLOTS {
            self.slots.resize(SLOTS, 0)?;
        }
        match self.steps.get_index_of(item) {
            Some(index) => self.slots[slot] = kept(index),
            None => {
                let index = self.steps.len();
                self.steps.insert(item.clone()?, step)?;
                self.slots[slot] = kept(index);
            }
        }
        Ok(())
    }

    // Where an item of a slot was found last. Where there are no slots yet, any index will do.
    #[inline(always)]
    fn place_in(&self, slot: usize) -> usize {
        match self.slots.get(slot) {
            Some(index) => usize::from(*index),
            None => 0,
        }
    }

    // Whether this item is noted at an index.
    fn is_at(&self, index: usize, item: &Item) -> bool
        ensures { IsTrue result → IsSome (step_of self.now item.now) }
    {
        match self.steps.get_index(index) {
            Some((kept, _)) => *kept == *item,
            None => false,
        }
    }

    /// Notes what a step asks of a name, as [`ItemSteps::note`] does. An item is made only where the slot does not have
    /// it.
    #[inline(always)]
    pub fn note_asked(&mut self, asked: Asked, name: &Name, step: u64) -> Result<(), AllocError>
        ensures ok { OnOk result ((q : Item) → step_of self.new q ≡
            or_later (step_of self.old q) (if same_item (items.Named asked name.now) q then Some step else None)) }
        ensures err { OnErr result (self.new ≡ self.old) }
    {
        let slot = slot_of(mark_of(asked, name));
        if self.is_asked_at(self.place_in(slot), asked, name) {
            return Ok(());
        }
        self.note_named(asked, name, step, slot)
    }

    // The same, where the slot did not have it. The item shares the name.
    #[cold]
    #[inline(never)]
    fn note_named(
        &mut self,
        asked: Asked,
        name: &Name,
        step: u64,
        slot: usize,
    ) -> Result<(), AllocError>
        requires { slot < 2048 }
        ensures ok { OnOk result ((q : Item) → step_of self.new q ≡
            or_later (step_of self.old q) (if same_item (items.Named asked name.now) q then Some step else None)) }
        ensures err { OnErr result (self.new ≡ self.old) }
    {
        self.note_at(&Item::Named(asked, name.clone()?), step, slot)
    }

    // Whether what is asked of a name is noted at an index.
    #[inline(always)]
    fn is_asked_at(&self, index: usize, asked: Asked, name: &Name) -> bool
        ensures { IsTrue result → IsSome (step_of self.now (items.Named asked name.now)) }
    {
        match self.steps.get_index(index) {
            Some((kept, _)) => is_asked(kept, asked, name),
            None => false,
        }
    }

    /// Forgets the steps from one on, that one too. It takes no memory.
    pub fn forget(&mut self, from: u64)
        ensures { (q : Item) → step_of self.new q ≡ below from (step_of self.old q) }
    {
        self.steps.retain(
            |_item: &Item, step: &mut u64| -> bool
                ensures { (result ≡ nat_lt step.old from) × (step.new ≡ step.old) }
            { *step < from },
        );
    }
}

// The slot of a mark.
#[inline(always)]
fn slot_of(mark: u64) -> usize
    ensures { result < 2048 }
{
    (mark % SLOTS as u64) as usize
}

// Whether an item asks this of this name.
#[inline(always)]
fn is_asked(item: &Item, asked: Asked, name: &Name) -> bool
    ensures { result ≡ same_item (items.Named asked name.now) item.now }
{
    match item {
        Item::Named(other, of) => asked == *other && *name == *of,
        _ => false,
    }
}

// By its mark what is asked of a name has a slot, which is looked at first; nothing else depends on it.
#[inline(always)]
fn mark_of(asked: Asked, name: &Name) -> u64 {
    match asked {
        Asked::Fits(units) => name.mark().wrapping_add(units.wrapping_mul(APART)),
        _ => name.mark(),
    }
}

// The mark of an item without a name.
fn mark_without_name(item: &Item) -> u64 {
    match item {
        Item::Seed => 1,
        _ => 0,
    }
}

// An index, as a slot keeps it: one that it cannot hold is not kept.
fn kept(index: usize) -> u16 {
    match u16::try_from(index) {
        Ok(index) => index,
        Err(_) => 0,
    }
}

// The step that noted an item, where that is asked of the storage.
fn asked_at(name: &Name, from: Option<u64>, to: Option<u64>, item: &Item, step: u64) -> Option<u64>
    ensures { result ≡ (if is_ask name.now from to item.now then Some step else None) }
{
    if is_ask(name, from, to, item) {
        Some(step)
    } else {
        None
    }
}

// Whether an amount is asked of the storage of this name that two capacities answer in two ways, or the capacity.
fn is_ask(name: &Name, from: Option<u64>, to: Option<u64>, item: &Item) -> bool
    ensures { result ≡ is_ask name.now from to item.now }
{
    match item {
        Item::Named(asked, other) => name == other && answers_differ(from, to, *asked),
        _ => false,
    }
}

// Whether two capacities answer this in two ways, where it is asked of their storage.
fn answers_differ(from: Option<u64>, to: Option<u64>, asked: Asked) -> bool
    ensures { result ≡ answers_differ from to asked }
{
    match asked {
        Asked::Fits(amount) => differs(from, to, amount),
        Asked::Storage => is_other(from, to),
        _ => false,
    }
}

// Whether two capacities are two numbers.
fn is_other(from: Option<u64>, to: Option<u64>) -> bool
    ensures { result ≡ is_other from to }
{
    match (from, to) {
        (Some(from), Some(to)) => from != to,
        _ => true,
    }
}

fn differs(from: Option<u64>, to: Option<u64>, amount: u64) -> bool
    ensures { result ≡ differs from to amount }
{
    match (from, to) {
        (Some(from), Some(to)) => (amount <= from) != (amount <= to),
        _ => true,
    }
}

/// The earlier of two steps, of which either may be none.
pub fn earlier(a: Option<u64>, b: Option<u64>) -> Option<u64>
    ensures { result ≡ earlier a b }
{
    match (a, b) {
        (Some(a), Some(b)) => Some(a.min(b)),
        (Some(a), None) => Some(a),
        (None, b) => b,
    }
}
