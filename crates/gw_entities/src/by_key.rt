ghost use Rattle.std.specs.Prelude.{◌≡◌, [], length, map, None, slice_get, unwrap_or};
ghost use Rattle.std.specs.Prelude.{IfOk, OnOk, OnErr};
ghost use Rattle.std.specs.Option.{option_map};
ghost use Rattle.gw_names.specs.declared.key.Key.{Key};
ghost use Rattle.gw_meaning.specs.Tables.{value_of, with_value, AreApart, IsPlace};

use crate::counted::Counted;
use crate::key_set::KeySet;
use gw_names::Key;
use gw_nums::Clock;
use gw_shared::SharedList;
use std::alloc::{AllocError, Global};
use std::marker::Model;

/// A value for each entity, in order of first touch. Copies share the keys until one of them touches a further entity,
/// and the values but for those that changed.
#[derive(Drop)]
pub struct ByKey<V: Copy> {
    keys: KeySet,
    // For each key its value.
    values: SharedList<V>,
}

impl<V: Copy> Model for ByKey<V> {
    ghost use Rattle.std.specs.Prelude.{◌≡◌, List, length};
    ghost use Rattle.std.specs.List.{IsDistinct, zip};
    ghost use Rattle.gw_names.specs.declared.key.Key.{Key};
    ghost use Rattle.gw_names.specs.Keys.{key_eq};

    ghost Value = { List (Key × V) };

    ghost view = { λ t. zip t.keys.keys t.values.items };

    ghost invariant = { λ t. (length t.values.items ≡ length t.keys.keys) × IsDistinct key_eq t.keys.keys };
}

impl<V: Copy> ByKey<V> {
    /// Nothing is touched yet.
    pub fn new(alloc: Global) -> ByKey<V>
        ensures { result ≡ [] }
    {
        ByKey {
            keys: KeySet::new(alloc),
            values: SharedList::new(alloc),
        }
    }

    /// How many entities were touched. None stands twice among the entries.
    pub fn len(&self) -> usize
        ensures len { result ≡ length self.now }
        ensures distinct { AreApart self.now }
    {
        self.values.len()
    }

    /// The value of an entity.
    #[inline(always)]
    pub fn get(&self, key: &Key) -> Option<V>
        ensures { result ≡ value_of self.now key.now }
    {
        let index = self.keys.place(key)?;
        Some(*self.values.at(index))
    }

    /// Where an entity lies, if it was touched.
    #[inline(always)]
    pub fn place(&self, key: &Key) -> Option<usize>
        ensures { IsPlace self.now key.now result }
    {
        self.keys.place(key)
    }

    /// The value of an entity that lies at a place, or another where it was not touched.
    #[inline(always)]
    pub fn value_at(&self, place: Option<usize>, other: V) -> V
        ghost key: { Key }
        requires { IsPlace self.now key place }
        ensures { result ≡ unwrap_or (value_of self.now key) other }
    {
        match place {
            Some(index) => *self.values.at(index),
            None => other,
        }
    }

    /// Sets the value of an entity that lies at a place: there, or after the others where it was not touched. Where
    /// memory is refused, nothing changes.
    #[inline(always)]
    pub fn put_at(&mut self, key: &Key, place: Option<usize>, value: V) -> Result<(), AllocError>
        requires { IsPlace self.old key.now place }
        ensures ok { OnOk result (self.new ≡ with_value self.old key.now value) }
        ensures err { OnErr result (self.new ≡ self.old) }
    {
        let Some(index) = place else {
            return self.push(key, value);
        };
        self.values.reserve(1)?;
        self.values.set(index, value);
        Ok(())
    }

    /// Sets the value of an entity: in place where it has one, else after the others. Where memory is refused, nothing
    /// changes.
    pub fn put(&mut self, key: &Key, value: V) -> Result<(), AllocError>
        ensures ok { OnOk result (self.new ≡ with_value self.old key.now value) }
        ensures err { OnErr result (self.new ≡ self.old) }
    {
        let place = self.place(key);
        self.put_at(key, place, value)
    }

    // An entity that has no value comes after the others.
    #[cold]
    #[inline(never)]
    fn push(&mut self, key: &Key, value: V) -> Result<(), AllocError>
        requires { value_of self.old key.now ≡ None }
        ensures ok { OnOk result (self.new ≡ with_value self.old key.now value) }
        ensures err { OnErr result (self.new ≡ self.old) }
    {
        let own = key.clone()?;
        self.keys.reserve()?;
        self.values.reserve(1)?;
        self.keys.insert(own);
        self.values.push(value);
        Ok(())
    }

    /// The entity at an index, in order of first touch, and its value.
    pub fn at(&self, index: usize) -> Option<(&Key, V)>
        ensures { option_map (λ p. (p.0.now, p.1)) result ≡ slice_get self.now index }
    {
        if index < self.values.len() {
            Some((self.keys.at(index), *self.values.at(index)))
        } else {
            None
        }
    }

    /// Copies share all entities from now on.
    pub fn share(&mut self) -> Result<(), AllocError>
        ensures { self.new ≡ self.old }
    {
        self.keys.share()?;
        self.values.share()
    }

    /// Entities of the same values.
    pub fn copy(&self) -> Result<ByKey<V>, AllocError>
        ensures { IfOk result (λ t. t ≡ self.now) }
    {
        let keys = self.keys.copy()?;
        Ok(ByKey {
            keys,
            values: self.values.copy()?,
        })
    }
}

impl<V: Counted> ByKey<V> {
    /// The same entities, each counted anew from a clock on.
    pub fn anew(&self, alloc: Global, clock: Clock) -> Result<ByKey<V>, AllocError>
        ensures { IfOk result (λ t. t ≡ map (λ e. (e.0, V.anew clock e.1)) self.now) }
    {
        let keys = self.keys.copy()?;
        Ok(ByKey {
            keys,
            values: all_anew(alloc, &self.values, clock)?,
        })
    }
}

// These values, each counted anew.
fn all_anew<V: Counted>(
    alloc: Global,
    values: &SharedList<V>,
    clock: Clock,
) -> Result<SharedList<V>, AllocError>
    ensures { IfOk result (λ l. l.items ≡ map (λ v. V.anew clock v) values.now.items) }
{
    let mut anew = SharedList::new(alloc);
    anew.reserve(values.len())?;
    for index in 0..values.len() {
        anew.push(values.at(index).anew(clock));
    }
    Ok(anew)
}
