ghost use Rattle.std.specs.Prelude.{◌≡◌, ◌<◌, ◌≤◌, [], length, nat_eq, slice_get, IfOk, OnOk};
ghost use Rattle.std.specs.List.{IsDistinct};
ghost use Rattle.std.specs.Map.{keys_of};
ghost use Rattle.gw_table.specs.Pairs.{value_in, with_value, HasRoom};

use std::alloc::{AllocError, Global};
use std::marker::Model;

/// A map from small numbers to values: pairs, in the order of first insertion.
#[derive(Drop)]
pub struct Table<V: Copy> {
    // At each number its value, if it has one.
    values: Vec<Option<V>>,
    // The numbers that have a value, in the order of first insertion.
    numbers: Vec<u32>,
}

impl<V: Copy> Model for Table<V> {
    ghost use Rattle.std.specs.Prelude.{length, vec_capacity};
    ghost use Rattle.gw_table.specs.Pairs.{Pairs, pairs_code};
    ghost use Rattle.gw_table.specs.Values.{pairs_of, limit_of, IsListed};

    ghost Value = { Pairs V };

    ghost coded = { pairs_code V.code };

    ghost view = { λ t. record {
      entries = pairs_of t.values.items t.numbers.items;
      limit = limit_of (length t.values.items) (vec_capacity t.numbers);
    } };

    ghost invariant = { λ t. IsListed t.numbers.items t.values.items };
}

impl<V: Copy> Table<V> {
    /// An empty table.
    pub fn new(alloc: Global) -> Table<V>
        ensures { result.entries ≡ [] }
    {
        Table {
            values: Vec::new(alloc),
            numbers: Vec::new(alloc),
        }
    }

    /// How many pairs there are. No number stands twice among them.
    pub fn len(&self) -> usize
        ensures len { result ≡ length self.now.entries }
        ensures distinct { IsDistinct nat_eq (keys_of self.now.entries) }
    {
        self.numbers.len()
    }

    /// The pair at a place in the order of first insertion.
    pub fn pair(&self, place: usize) -> Option<(u64, V)>
        ensures { result ≡ slice_get self.now.entries place }
    {
        let number = u64::from(*self.numbers.get(place)?);
        Some((number, self.get(number)?))
    }

    /// The value at a number.
    #[inline(always)]
    pub fn get(&self, number: u64) -> Option<V>
        ensures { result ≡ value_in self.now.entries number }
    {
        *self.values.get(number as usize)?
    }

    /// Makes room for a number, for good. It changes no pair, and where memory is refused it leaves the room that
    /// there was. A number of 2^32 or more gets none.
    pub fn reserve(&mut self, number: u64) -> Result<(), AllocError>
        ensures ok { OnOk result (number < self.new.limit) }
        ensures entries { self.new.entries ≡ self.old.entries }
        ensures limit { self.old.limit ≤ self.new.limit }
    {
        let is_there = (number as usize) < self.values.len();
        if is_there && self.values.len() <= self.numbers.capacity() {
            return Ok(());
        }
        self.grow(number)
    }

    // Makes the table so long that it has a place for this number, and room for as many numbers.
    #[cold]
    #[inline(never)]
    fn grow(&mut self, number: u64) -> Result<(), AllocError>
        ensures ok { OnOk result (number < self.new.limit) }
        ensures entries { self.new.entries ≡ self.old.entries }
        ensures limit { self.old.limit ≤ self.new.limit }
    {
        if number > u32::MAX as u64 {
            return Err(AllocError);
        }
        let size = self.values.len().max(number as usize + 1);
        self.numbers.reserve(size - self.numbers.len())?;
        if size > self.values.len() {
            self.values.resize(size, None)?;
        }
        Ok(())
    }

    /// Sets the value at a number: in place where the number has a pair, else as the last pair.
    #[inline(always)]
    pub fn set(&mut self, number: u64, value: V)
        requires { HasRoom self.old number }
        ensures entries { self.new.entries ≡ with_value self.old.entries number value }
        ensures limit { self.new.limit ≡ self.old.limit }
    {
        let place = number as usize;
        if self.values[place].is_none() {
            self.numbers.push_reserved(number as u32);
        }
        self.values[place] = Some(value);
    }

    /// A table of the same pairs, which takes no more memory than they need: its room has to be reserved anew.
    pub fn copy(&self) -> Result<Table<V>, AllocError>
        ensures { IfOk result (λ t. t.entries ≡ self.now.entries) }
    {
        let alloc = *self.numbers.allocator();
        Ok(Table {
            values: Vec::from_slice(alloc, &self.values)?,
            numbers: Vec::from_slice(alloc, &self.numbers)?,
        })
    }
}
