ghost use Rattle.std.specs.Prelude.{◌≡◌, ◌+◌, ◌*◌, ◌≤◌, [], length, IfOk, OnOk, OnErr};
ghost use Rattle.gw_entities.specs.Owned.{AreKnown, AreRising, said_by};
ghost use Rattle.gw_meaning.specs.Parameters.{all_inherited, assigned, inherited, parameter_at, values_at, without};
ghost use Rattle.gw_entities.specs.Keeping.{grouped};

use crate::own_list::{Item, OwnList};
use gw_names::Key;
use gw_nums::Val;
use std::alloc::{AllocError, Global};
use std::marker::Model;

/// The parameters of transactions, by the number of the transaction and the key of the parameter. Copies share those that
/// did not change.
#[derive(Drop)]
pub struct Parameters {
    own: OwnList<Val>,
}

impl Model for Parameters {
    ghost use Rattle.std.specs.Prelude.{ℕ, ℤ, List};
    ghost use Rattle.gw_names.specs.declared.key.Key.{Key};
    ghost use Rattle.gw_entities.specs.Owned.{AreRising};
    ghost use Rattle.gw_entities.specs.Keeping.{grouped};

    ghost Value = { List (ℕ × List (Key × ℤ)) };

    ghost view = { λ p. grouped p.own.entries };

    ghost invariant = { λ p. AreRising p.own.entries };
}

impl Parameters {
    /// No transaction has any.
    pub fn new(alloc: Global) -> Parameters
        ensures { result ≡ [] }
    {
        Parameters {
            own: OwnList::new(alloc),
        }
    }

    /// The value of a parameter of a transaction, if it has one.
    pub fn get(&self, number: u64, key: &Key) -> Option<Val>
        ensures { result ≡ parameter_at self.now number key.now }
    {
        self.own.get(number, key)
    }

    /// Sets a parameter of a transaction, or changes nothing where memory is refused.
    pub fn assign(&mut self, number: u64, key: &Key, value: Val) -> Result<(), AllocError>
        ensures ok { OnOk result (self.new ≡ assigned self.old number key.now value) }
        ensures err { OnErr result (self.new ≡ self.old) }
    {
        let place = self.own.reserve(key)?;
        self.own.put(number, place, value);
        Ok(())
    }

    /// Gives the parameters of a transaction to so many others, from a number on, or changes nothing where memory is
    /// refused.
    pub fn inherit(
        &mut self,
        alloc: Global,
        from: u64,
        first: u64,
        count: u64,
    ) -> Result<(), AllocError>
        ensures ok { OnOk result (self.new ≡ all_inherited count (values_at self.old from) first self.old) }
        ensures err { OnErr result (self.new ≡ self.old) }
    {
        let values = self.own.all(alloc, from)?;
        let Some(all) = values.len().checked_mul(count as usize) else {
            return Err(AllocError);
        };
        self.own.reserve_known(all)?;
        give_all(&mut self.own, first, count, &values);
        Ok(())
    }

    /// Forgets the parameters of a transaction, or changes nothing where memory is refused.
    #[inline(always)]
    pub fn forget(&mut self, number: u64) -> Result<(), AllocError>
        ensures ok { OnOk result (self.new ≡ without self.old number) }
        ensures err { OnErr result (self.new ≡ self.old) }
    {
        if self.own.is_empty() {
            return Ok(());
        }
        self.own.forget(number)?;
        Ok(())
    }

    /// Copies share all parameters from now on.
    pub fn share(&mut self) -> Result<(), AllocError>
        ensures { self.new ≡ self.old }
    {
        self.own.share()
    }

    /// A copy.
    pub fn copy(&self) -> Result<Parameters, AllocError>
        ensures { IfOk result (λ p. p ≡ self.now) }
    {
        let own = self.own.copy()?;
        Ok(Parameters { own })
    }
}

// Assigns what these say to so many transactions, from a number on.
fn give_all(own: &mut OwnList<Val>, first: u64, count: u64, values: &[Item<Val>])
    requires room { length values.now * count ≤ own.old.room }
    requires known { AreKnown (length own.old.keys) values.now }
    requires rising { AreRising own.old.entries }
    ensures given { grouped own.new.entries ≡
        all_inherited count (said_by own.old.keys values.now) first (grouped own.old.entries) }
    ensures rising { AreRising own.new.entries }
{
    let mut number = first;
    for _copy in 0..count {
        give(own, number, values);
        number = number.saturating_add(1);
    }
}

// Assigns what these say to a transaction, one by one.
fn give(own: &mut OwnList<Val>, number: u64, values: &[Item<Val>])
    requires room { length values.now ≤ own.old.room }
    requires known { AreKnown (length own.old.keys) values.now }
    requires rising { AreRising own.old.entries }
    ensures given { grouped own.new.entries ≡
        inherited (said_by own.old.keys values.now) number (grouped own.old.entries) }
    ensures rising { AreRising own.new.entries }
    ensures keys { own.new.keys ≡ own.old.keys }
    ensures room { own.old.room ≤ own.new.room + length values.now }
{
    for item in values {
        own.put(number, item.key, item.value);
    }
}
