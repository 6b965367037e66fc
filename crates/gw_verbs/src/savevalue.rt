// SAVEVALUE: a savevalue is set, or something is added to it or taken from it.
ghost use Rattle.std.specs.Prelude.{option_copied};
ghost use Rattle.gw_meaning.specs.Step.{savevalue_with, savevalue_prog};
ghost use Rattle.gw_asking.specs.Deciding.{Comes};
ghost use Rattle.gw_values.specs.Contexts.{DecidesIn};

use crate::assign::{arithmetic, by_sign};
use crate::entering::enter_doing;
use gw_asking::Notes;
use gw_expr::{Expr, Halt};
use gw_meaning::{Auxiliary, Move, StatementId, Update};
use gw_names::Key;
use gw_nums::Val;
use gw_values::{Context, key_of, value_there};

/// SAVEVALUE: a savevalue is set to the value of B, or that is added to it or taken from it. X7 where what comes of it
/// is no value.
#[inline(always)]
pub fn decide_savevalue(
    context: Context,
    notes: &mut Notes,
    id: StatementId,
    sign: Auxiliary,
    entity: Option<&Expr>,
    value: Option<&Expr>,
) -> Result<Move, Halt>
    ensures { DecidesIn context.entry (λ s q. savevalue_prog s q id sign (option_copied entity.entry)
        (option_copied value.entry)) result notes.old notes.new }
{
    let key = key_of(context, notes, entity)?;
    let value = value_there(context, notes, value)?;
    let was = context.state.entities().savevalue(&key);
    savevalue_with(id, sign, key, was, value)
}

#[inline(always)]
fn savevalue_with(
    id: StatementId,
    sign: Auxiliary,
    key: Key,
    was: Option<Val>,
    value: Val,
) -> Result<Move, Halt>
    ensures { Comes (savevalue_with id sign key was value) result }
{
    let to = arithmetic(by_sign(sign, was, value))?;
    Ok(enter_doing(id, key, Update::Savevalue { to }))
}
