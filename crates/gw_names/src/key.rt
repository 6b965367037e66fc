ghost use Rattle.std.specs.Prelude.{◌≡◌};
ghost use Rattle.gw_names.specs.Keys.{key_eq, key_input, key_mark};

use crate::name::Name;
use std::alloc::AllocError;
use std::hash::{Hash, Hasher};

/// What an entity is called: a number from 1, a name, or the name of the definition that it has.
#[derive(Drop)]
pub enum Key {
    Num(u32),
    Named(Name),
    /// A storage or a table: no facility or queue has its key, also where it has the same name.
    Defined(Name),
}

impl Key {
    /// Its number, or its name's mark: keys are spread by it over slots.
    #[inline(always)]
    pub fn mark(&self) -> u64
        ensures { result ≡ key_mark self.now }
    {
        match self {
            Key::Num(number) => u64::from(*number),
            Key::Named(name) | Key::Defined(name) => name.mark(),
        }
    }
}

/// An equal key, as cheap as that of a [`Name`].
impl Clone for Key {
    ghost is_clone = { λ key copy. copy ≡ key };

    #[inline(always)]
    fn clone(&self) -> Result<Key, AllocError> {
        match self {
            Key::Num(number) => Ok(Key::Num(*number)),
            Key::Named(name) => Ok(Key::Named(name.clone()?)),
            Key::Defined(name) => Ok(Key::Defined(name.clone()?)),
        }
    }
}

impl PartialEq for Key {
    ghost use Rattle.std.proofs.Common.{rules};
    ghost use Rattle.std.specs.Cmp.Rules.{comparing};

    ghost eq = { key_eq };

    ghost laws = { Prim.search (comparing, rules) };

    #[inline(always)]
    fn eq(&self, other: &Key) -> bool {
        match (self, other) {
            (Key::Num(a), Key::Num(b)) => *a == *b,
            (Key::Named(a), Key::Named(b)) => *a == *b,
            (Key::Defined(a), Key::Defined(b)) => *a == *b,
            _ => false,
        }
    }
}

impl Eq for Key {
    ghost use Rattle.std.proofs.Common.{rules};
    ghost use Rattle.std.specs.Cmp.Rules.{comparing};

    ghost laws = { Prim.search (comparing, rules) };
}

impl Hash for Key {
    ghost use Rattle.std.proofs.Common.{rules};
    ghost use Rattle.std.specs.Cmp.Rules.{hashing};

    ghost hash_input = { key_input };

    ghost respects_eq = { Prim.search (hashing, rules) };

    fn hash<H: Hasher>(&self, state: &mut H) {
        match self {
            Key::Num(number) => state.write_u32(*number),
            Key::Named(name) | Key::Defined(name) => state.write(name.as_bytes()),
        }
    }
}
