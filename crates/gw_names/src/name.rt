ghost use Rattle.std.specs.Prelude.{◌≡◌, IfOk, Some};
ghost use Rattle.std.specs.Str.{bytes_eq};
ghost use Rattle.std.specs.List.{list_all};
ghost use Rattle.std.specs.Ordering.{nat_cmp};
ghost use Rattle.std.specs.Cmp.Lexicographic.{slice_cmp};
ghost use Rattle.gw_names.specs.Names.{name_of, is_name_text, is_name_byte, is_barred};
ghost use Rattle.gw_names.specs.Heads.{head_of, mark_of};

use crate::class::is_class;
use crate::spelling::Spelling;
use crate::verb::Verb;
use std::alloc::{AllocError, Global};
use std::cmp::Ordering;
use std::hash::{Hash, Hasher};
use std::marker::Model;
use std::sync::Arc;

/// A name of a label, an entity or a definition, in upper case: 1 to 200 letters, digits and `_`, first a
/// letter, and neither a verb nor the class of an attribute. Its clones share the spelling.
#[derive(Drop)]
pub struct Name {
    spelling: Arc<Spelling>,
}

impl Model for Name {
    ghost use Rattle.std.specs.Prelude.{ℕ, List, ◌≡◌, Some};
    ghost use Rattle.gw_names.specs.Names.{name_of};
    ghost use Rattle.gw_names.specs.Heads.{head_of, mark_of};

    ghost Value = { List ℕ };

    ghost view = { λ n. n.spelling.value.bytes.items };

    ghost invariant = { λ n. (name_of n.spelling.value.bytes.items ≡ Some n.spelling.value.bytes.items)
        × (n.spelling.value.head ≡ head_of n.spelling.value.bytes.items)
        × (n.spelling.value.mark ≡ mark_of n.spelling.value.bytes.items) };
}

impl Name {
    /// The name that the text spells, if it spells one.
    #[tactic(auto, using(crate::proofs::InUpperCase::name_of_upper), unfolding(crate::specs::Names::name_of))]
    pub fn read(alloc: Global, text: &[u8]) -> Result<Option<Name>, AllocError>
        ensures { IfOk result (λ o. o ≡ name_of text.now) }
    {
        if !is_name_text(text) {
            return Ok(None);
        }
        let bytes = text.to_ascii_uppercase(alloc)?;
        if is_barred(&bytes) {
            return Ok(None);
        }
        Ok(Some(Name {
            spelling: Arc::new(alloc, Spelling::new(bytes))?,
        }))
    }

    /// The name's bytes.
    pub fn as_bytes(&self) -> &[u8]
        ensures bytes { result.now ≡ self.now }
        ensures is_name { name_of self.now ≡ Some self.now }
    {
        self.spelling.bytes.as_slice()
    }

    /// A number that all its bytes tell, by whose lowest bits names are spread over slots.
    #[inline(always)]
    pub fn mark(&self) -> u64
        ensures { result ≡ mark_of self.now }
    {
        self.spelling.mark
    }

    // Whether the two are the same name. Heads that differ tell at once, and so do equal heads of short names.
    #[tactic(auto, using(crate::proofs::SameHeads::short_by_heads, crate::proofs::SameHeads::others_by_heads))]
    #[inline(always)]
    fn is(&self, other: &Name) -> bool
        ensures value { result ≡ bytes_eq self.now other.now }
    {
        self.spelling.head == other.spelling.head
            && (self.spelling.bytes.len() < 8 || self.as_bytes() == other.as_bytes())
    }

    // The order of the two by all their bytes. Never inlined, so that `cmp` stays small where it is inlined.
    #[inline(never)]
    fn order_of_bytes(&self, other: &Name) -> Ordering
        ensures { result ≡ slice_cmp nat_cmp self.now other.now }
    {
        self.as_bytes().cmp(&other.as_bytes())
    }
}

/// An equal name, which shares the spelling: no memory is wanted, and only a full count of sharers refuses it.
impl Clone for Name {
    ghost is_clone = { λ name copy. copy ≡ name };

    #[inline(always)]
    fn clone(&self) -> Result<Name, AllocError> {
        Ok(Name {
            spelling: Arc::try_clone(&self.spelling)?,
        })
    }
}

impl PartialEq for Name {
    ghost use Rattle.std.proofs.Common.{rules};
    ghost use Rattle.std.specs.Cmp.Rules.{comparing};
    ghost use Rattle.std.specs.Str.{bytes_eq};

    ghost eq = { bytes_eq };

    ghost laws = { Prim.search (comparing, rules) };

    #[inline(always)]
    fn eq(&self, other: &Name) -> bool {
        self.is(other)
    }
}

impl Eq for Name {
    ghost use Rattle.std.proofs.Common.{rules};
    ghost use Rattle.std.specs.Cmp.Rules.{comparing};

    ghost laws = { Prim.search (comparing, rules) };
}

impl Hash for Name {
    ghost use Rattle.std.specs.Prelude.{[], ◌∷◌};
    ghost use Rattle.std.proofs.Common.{rules};
    ghost use Rattle.std.specs.Cmp.Rules.{hashing};

    ghost hash_input = { λ name. name ∷ [] };

    ghost respects_eq = { Prim.search (hashing, rules) };

    fn hash<H: Hasher>(&self, state: &mut H) {
        state.write(self.as_bytes());
    }
}

impl Ord for Name {
    ghost use Rattle.std.proofs.Common.{rules};
    ghost use Rattle.std.specs.Cmp.Rules.{comparing};
    ghost use Rattle.std.specs.Cmp.Lexicographic.{slice_cmp};
    ghost use Rattle.std.specs.Ordering.{nat_cmp};

    ghost cmp = { slice_cmp nat_cmp };

    ghost total = { Prim.search (comparing, rules) };

    ghost matches_partial_cmp = { Prim.search (comparing, rules) };

    ghost matches_eq = { Prim.search (comparing, rules) };

    // Heads that differ tell at once, and so do equal heads of short names.
    #[tactic(auto, using(crate::proofs::HeadOrder::order_by_heads, crate::proofs::HeadOrder::short_tie))]
    #[inline(always)]
    fn cmp(&self, other: &Name) -> Ordering {
        if self.spelling.head != other.spelling.head {
            return self.spelling.head.cmp(&other.spelling.head);
        }
        if self.spelling.bytes.len() < 8 {
            return Ordering::Equal;
        }
        self.order_of_bytes(other)
    }
}

impl PartialOrd for Name {
    ghost use Rattle.std.proofs.Common.{rules};
    ghost use Rattle.std.specs.Cmp.{partial_order_from_own_ties};
    ghost use Rattle.std.specs.Cmp.Rules.{comparing};
    ghost use Rattle.std.specs.Cmp.Lexicographic.{slice_cmp};
    ghost use Rattle.std.specs.Ordering.{nat_cmp, as_partial_cmp};

    ghost partial_cmp = { as_partial_cmp (slice_cmp nat_cmp) };

    ghost laws = { partial_order_from_own_ties (Prim.search (comparing, rules)) (Prim.search (comparing, rules)) };

    #[inline(always)]
    fn partial_cmp(&self, other: &Name) -> Option<Ordering> {
        Some(self.cmp(other))
    }
}

// A letter and up to 199 letters, digits and `_` after it.
fn is_name_text(text: &[u8]) -> bool
    ensures { result ≡ is_name_text text.now }
{
    match text {
        [] => false,
        [first, rest @ ..] => first.is_ascii_alphabetic()
            && rest.len() <= 199
            && are_name_bytes(rest),
    }
}

fn are_name_bytes(text: &[u8]) -> bool
    ensures { result ≡ list_all is_name_byte text.now }
{
    text.iter().all(|b| b.is_ascii_alphanumeric() || *b == b'_')
}

// A verb, or the class of an attribute.
fn is_barred(word: &[u8]) -> bool
    ensures { result ≡ is_barred word.now }
{
    Verb::read(word).is_some() || is_class(word)
}
