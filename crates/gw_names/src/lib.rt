//! The words of the language: verbs, names, and the keys of entities.
//!
//! [`Verb`] has every verb of the language, so that none of them is ever a name. [`Name::read`] gives the upper-case
//! name that a text spells, or nothing where it spells none.
//!
//! Verbs and attribute classes are no names. What names an entity or a storage keeps the key of that name. Keys are
//! compared and hashed by what they name, and their clones are equal.
//!
//! Contracts: `Name::read`, `Verb::read`, `is_class`, `Key`.
#![tactic(auto)]

mod class;
mod entity_name;
mod key;
mod name;
mod spelling;
mod storage_name;
mod verb;

pub use class::{CLASSES, Class, is_class};
pub use entity_name::EntityName;
pub use key::Key;
pub use name::Name;
pub use storage_name::StorageName;
pub use verb::{BlockVerb, CommandVerb, DefinitionVerb, VERBS, Verb};
