// MARK: a transaction is marked with the absolute clock.
ghost use Rattle.gw_meaning.specs.Step.{mark_prog};
ghost use Rattle.gw_asking.specs.Deciding.{Comes};

use crate::entering::enter_with;
use gw_expr::Halt;
use gw_meaning::{Move, StatementId, TransactionChange};

/// MARK: the transaction is marked with the absolute clock.
#[inline(always)]
pub fn decide_mark(id: StatementId) -> Result<Move, Halt>
    ensures { Comes (mark_prog id) result }
{
    Ok(enter_with(id, TransactionChange::Mark))
}
