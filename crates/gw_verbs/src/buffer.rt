// BUFFER: a transaction lets its equals move first.
ghost use Rattle.gw_meaning.specs.Step.{buffer_prog};
ghost use Rattle.gw_asking.specs.Deciding.{Comes};

use crate::entering::enter_for;
use gw_expr::Halt;
use gw_meaning::{Fate, Move, StatementId};

/// BUFFER: the transaction lets its equals on the current chain move first.
#[inline(always)]
pub fn decide_buffer(id: StatementId) -> Result<Move, Halt>
    ensures { Comes (buffer_prog id) result }
{
    Ok(enter_for(id, Fate::Current))
}
