// LOGIC: a switch is set, reset or inverted.
ghost use Rattle.std.specs.Prelude.{◌≡◌, option_copied};
ghost use Rattle.gw_meaning.specs.Step.{switched, logic_prog};
ghost use Rattle.gw_values.specs.Contexts.{DecidesIn};

use crate::entering::enter_doing;
use gw_asking::Notes;
use gw_expr::{Expr, Halt, Stop};
use gw_meaning::{Auxiliary, Move, StatementId, Switching, Update};
use gw_values::{Context, key_of};

/// LOGIC: a switch is set, reset or inverted, as the operator says.
#[inline(always)]
pub fn decide_logic(
    context: Context,
    notes: &mut Notes,
    id: StatementId,
    operator: Auxiliary,
    entity: Option<&Expr>,
) -> Result<Move, Halt>
    ensures { DecidesIn context.entry (λ s q. logic_prog s q id operator (option_copied entity.entry))
        result notes.old notes.new }
{
    let Auxiliary::Logic(switching) = operator else {
        return Err(Halt::stop(Stop::NoNextBlock));
    };
    let key = key_of(context, notes, entity)?;
    let set = switched(switching, context.state.entities().is_set(&key));
    Ok(enter_doing(id, key, Update::Switch { set }))
}

// What a LOGIC makes of a switch.
#[inline(always)]
fn switched(switching: Switching, was: bool) -> bool
    ensures { result ≡ switched switching was }
{
    match switching {
        Switching::Set => true,
        Switching::Reset => false,
        Switching::Invert => !was,
    }
}
