ghost use Rattle.std.specs.Prelude.{◌≡◌, ◌++◌, ◌∷◌, [], length, map, None, slice_get, unwrap_or};
ghost use Rattle.std.specs.Prelude.{IfOk, OnOk, OnErr};
ghost use Rattle.std.specs.Option.{option_map};
ghost use Rattle.gw_meaning.specs.Tables.{value_of, with_value, AreApart, IsPlace};

use crate::key_set::KeySet;
use crate::values::Values;
use gw_names::Key;
use gw_nums::Val;
use std::alloc::{AllocError, Global};
use std::marker::Model;

/// The values of each table, in order of first touch. Copies share them.
#[derive(Drop)]
pub struct Tables {
    keys: KeySet,
    // The values of each key.
    values: Vec<Values>,
}

impl Model for Tables {
    ghost use Rattle.std.specs.Prelude.{◌≡◌, ℤ, List, length};
    ghost use Rattle.std.specs.List.{IsDistinct, zip};
    ghost use Rattle.gw_names.specs.declared.key.Key.{Key};
    ghost use Rattle.gw_names.specs.Keys.{key_eq};

    ghost Value = { List (Key × List ℤ) };

    ghost view = { λ t. zip t.keys.keys t.values.items };

    ghost invariant = { λ t. (length t.values.items ≡ length t.keys.keys) × IsDistinct key_eq t.keys.keys };
}

impl Tables {
    /// No table was touched yet.
    pub fn new(alloc: Global) -> Tables
        ensures { result ≡ [] }
    {
        Tables {
            keys: KeySet::new(alloc),
            values: Vec::new(alloc),
        }
    }

    /// How many tables were touched. None stands twice among them.
    pub fn len(&self) -> usize
        ensures len { result ≡ length self.now }
        ensures distinct { AreApart self.now }
    {
        self.values.len()
    }

    /// How many values a table has.
    pub fn count(&self, key: &Key) -> usize
        ensures { result ≡ length (unwrap_or (value_of self.now key.now) []) }
    {
        match self.place(key) {
            Some(index) => self.values[index].len(),
            None => 0,
        }
    }

    // Where the values of a table lie, if it was touched.
    fn place(&self, key: &Key) -> Option<usize>
        ensures { IsPlace self.now key.now result }
    {
        self.keys.place(key)
    }

    /// One more value of a table comes after its others. Where memory is refused, none comes.
    pub fn add(&mut self, key: &Key, value: Val) -> Result<(), AllocError>
        ensures ok { OnOk result (self.new ≡
            with_value self.old key.now (unwrap_or (value_of self.old key.now) [] ++ value ∷ [])) }
        ensures err { OnErr result (self.new ≡ self.old) }
    {
        let Some(index) = self.place(key) else {
            return self.begin(key, value);
        };
        self.values[index].push(value)?;
        Ok(())
    }

    // The same of a table that was not touched yet.
    #[cold]
    fn begin(&mut self, key: &Key, value: Val) -> Result<(), AllocError>
        requires { value_of self.old key.now ≡ None }
        ensures ok { OnOk result (self.new ≡
            with_value self.old key.now (unwrap_or (value_of self.old key.now) [] ++ value ∷ [])) }
        ensures err { OnErr result (self.new ≡ self.old) }
    {
        let own = key.clone()?;
        self.keys.reserve()?;
        self.values.reserve(1)?;
        let mut values = Values::new(*self.values.allocator());
        values.push(value)?;
        self.keys.insert(own);
        self.values.push_reserved(values);
        Ok(())
    }

    /// The table at an index, in order of first touch, and its values.
    pub fn at(&self, index: usize) -> Option<(&Key, &Values)>
        ensures { option_map (λ p. (p.0.now, p.1.now)) result ≡ slice_get self.now index }
    {
        if index < self.values.len() {
            Some((self.keys.at(index), &self.values[index]))
        } else {
            None
        }
    }

    /// The same tables without their values.
    pub fn anew(&self) -> Result<Tables, AllocError>
        ensures { IfOk result (λ t. t ≡ map (λ e. (e.0, [])) self.now) }
    {
        let keys = self.keys.copy()?;
        Ok(Tables {
            keys,
            values: as_many_empty(*self.values.allocator(), &self.values)?,
        })
    }

    /// Copies share from now on what came until now. It holds the same, also where memory is refused.
    pub fn share(&mut self) -> Result<(), AllocError>
        ensures { self.new ≡ self.old }
    {
        self.keys.share()?;
        share_all(&mut self.values)
    }

    /// Tables of the same values.
    pub fn copy(&self) -> Result<Tables, AllocError>
        ensures { IfOk result (λ t. t ≡ self.now) }
    {
        let keys = self.keys.copy()?;
        Ok(Tables {
            keys,
            values: copy_all(*self.values.allocator(), &self.values)?,
        })
    }
}

// For each of these one without values.
fn as_many_empty(alloc: Global, values: &[Values]) -> Result<Vec<Values>, AllocError>
    ensures { IfOk result (λ vs. vs.items ≡ map (λ v. []) values.now) }
{
    let mut empty = Vec::with_capacity(alloc, values.len())?;
    for _table in values {
        empty.push(Values::new(alloc))?;
    }
    Ok(empty)
}

// Copies share from now on what came to these.
fn share_all(values: &mut Vec<Values>) -> Result<(), AllocError>
    ensures { values.new.items ≡ values.old.items }
{
    for index in 0..values.len() {
        values[index].share()?;
    }
    Ok(())
}

// Equal ones.
fn copy_all(alloc: Global, values: &[Values]) -> Result<Vec<Values>, AllocError>
    ensures { IfOk result (λ vs. vs.items ≡ values.now) }
{
    let mut copies = Vec::with_capacity(alloc, values.len())?;
    for value in values {
        copies.push(value.copy()?)?;
    }
    Ok(copies)
}
