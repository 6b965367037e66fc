ghost use Rattle.std.specs.Prelude.{◌≡◌};
ghost use Rattle.gw_names.specs.declared.key.Key.TheVariants as keys;

use crate::key::Key;
use crate::name::Name;
use std::marker::Model;

/// The name of an entity, kept as the entity's key, so that a look-up borrows the key.
#[derive(Drop)]
pub struct EntityName {
    key: Key,
}

impl Model for EntityName {
    ghost use Rattle.std.specs.Prelude.{◌≡◌, ℕ, List};
    ghost use Rattle.gw_names.specs.declared.key.Key.TheVariants as keys;
    ghost use Rattle.gw_names.specs.Keys.{name_in};

    ghost Value = { List ℕ };

    ghost view = { λ n. name_in n.key };

    ghost invariant = { λ n. n.key ≡ keys.Named (name_in n.key) };
}

impl EntityName {
    /// The name of an entity.
    pub fn new(name: Name) -> EntityName
        ensures { result ≡ name }
    {
        EntityName {
            key: Key::Named(name),
        }
    }

    /// The name itself.
    #[inline(always)]
    pub fn name(&self) -> &Name
        ensures { result.now ≡ self.now }
    {
        match &self.key {
            Key::Named(name) => name,
            _ => unreachable!(),
        }
    }

    /// The key of the entity with this name.
    #[inline(always)]
    pub fn key(&self) -> &Key
        ensures { result.now ≡ keys.Named self.now }
    {
        &self.key
    }
}

impl PartialEq for EntityName {
    ghost use Rattle.std.proofs.Common.{rules};
    ghost use Rattle.std.specs.Cmp.Rules.{comparing};
    ghost use Rattle.std.specs.Str.{bytes_eq};

    ghost eq = { bytes_eq };

    ghost laws = { Prim.search (comparing, rules) };

    fn eq(&self, other: &EntityName) -> bool {
        self.name() == other.name()
    }
}

impl Eq for EntityName {
    ghost use Rattle.std.proofs.Common.{rules};
    ghost use Rattle.std.specs.Cmp.Rules.{comparing};

    ghost laws = { Prim.search (comparing, rules) };
}
