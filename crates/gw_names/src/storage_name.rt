ghost use Rattle.std.specs.Prelude.{◌≡◌};
ghost use Rattle.gw_names.specs.declared.key.Key.TheVariants as keys;

use crate::key::Key;
use crate::name::Name;
use std::marker::Model;

/// The name of a storage's definition, kept as the storage's key, so that a look-up borrows the key.
#[derive(Drop)]
pub struct StorageName {
    key: Key,
}

impl Model for StorageName {
    ghost use Rattle.std.specs.Prelude.{◌≡◌, ℕ, List};
    ghost use Rattle.gw_names.specs.declared.key.Key.TheVariants as keys;
    ghost use Rattle.gw_names.specs.Keys.{name_in};

    ghost Value = { List ℕ };

    ghost view = { λ n. name_in n.key };

    ghost invariant = { λ n. n.key ≡ keys.Defined (name_in n.key) };
}

impl StorageName {
    /// The name of a storage.
    pub fn new(name: Name) -> StorageName
        ensures { result ≡ name }
    {
        StorageName {
            key: Key::Defined(name),
        }
    }

    /// The name itself.
    #[inline(always)]
    pub fn name(&self) -> &Name
        ensures { result.now ≡ self.now }
    {
        match &self.key {
            Key::Defined(name) => name,
            _ => unreachable!(),
        }
    }

    /// The key of the storage.
    #[inline(always)]
    pub fn key(&self) -> &Key
        ensures { result.now ≡ keys.Defined self.now }
    {
        &self.key
    }
}

impl PartialEq for StorageName {
    ghost use Rattle.std.proofs.Common.{rules};
    ghost use Rattle.std.specs.Cmp.Rules.{comparing};
    ghost use Rattle.std.specs.Str.{bytes_eq};

    ghost eq = { bytes_eq };

    ghost laws = { Prim.search (comparing, rules) };

    fn eq(&self, other: &StorageName) -> bool {
        self.name() == other.name()
    }
}

impl Eq for StorageName {
    ghost use Rattle.std.proofs.Common.{rules};
    ghost use Rattle.std.specs.Cmp.Rules.{comparing};

    ghost laws = { Prim.search (comparing, rules) };
}
