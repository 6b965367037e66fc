ghost use Rattle.std.specs.Prelude.{◌≡◌, Some, None};

use crate::statement_id::StatementId;
use std::marker::Model;

// The number of no block, above every statement's id.
const NO_BLOCK: u32 = u32::MAX;

/// The block that a transaction goes to next, where one is set. It is seen as an `Option`, and takes no more room than
/// an id.
#[derive(Clone, Copy)]
pub struct Destination {
    id: u32,
}

impl Model for Destination {
    ghost use Rattle.std.specs.Prelude.{ℕ, Option};
    ghost use Rattle.std.proofs.Common.{ap};
    ghost use Rattle.gw_meaning.specs.Places.{id_or_none, block_of, number_is_kept};

    ghost Value = { Option ℕ };

    ghost view = { λ d. block_of d.id };

    ghost inverse = { λ o. record { id = id_or_none o } };

    ghost inverse_ok = { λ d h. ap (λ n. record { id = n }) (number_is_kept d.id) };
}

impl Destination {
    /// No block is set.
    pub fn none() -> Destination
        ensures { result ≡ None }
    {
        Destination { id: NO_BLOCK }
    }

    /// This block.
    #[tactic(auto, using(crate::proofs::Destinations::below_is_block))]
    pub fn to(id: StatementId) -> Destination
        ensures { result ≡ Some id }
    {
        Destination { id: id.short() }
    }

    /// The block, if one is set.
    #[tactic(auto, using(crate::proofs::Destinations::below_is_block))]
    pub fn id(self) -> Option<StatementId>
        ensures { result ≡ self }
    {
        if self.id < NO_BLOCK {
            Some(StatementId::known(self.id))
        } else {
            None
        }
    }
}
