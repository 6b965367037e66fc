ghost use Rattle.std.specs.Prelude.{◌≡◌};
ghost use Rattle.gw_report.specs.Chains.{position_of, next_number};

use gw_meaning::{StatementId, Transaction};
use gw_model::Version;

/// The position of a block, and 0 where there is none.
#[tactic(auto, unfolding(crate::specs::Chains::position_of))]
pub fn position_of(version: &Version, id: Option<StatementId>) -> u64
    ensures { result ≡ position_of version.now id }
{
    match id {
        Some(id) => version.position(id).unwrap_or(0),
        None => 0,
    }
}

/// The block that a transaction goes to next, if there is one.
pub fn next_number(version: &Version, transaction: &Transaction) -> Option<StatementId>
    ensures { result ≡ next_number version.now transaction.now transaction.now.destination }
{
    match transaction.destination.id() {
        Some(id) => Some(id),
        None => version.after(transaction.current),
    }
}
