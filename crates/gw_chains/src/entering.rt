ghost use Rattle.std.specs.Prelude.{◌≡◌, ◌+◌, ◌<◌, ◌≤◌};
ghost use Rattle.gw_meaning.specs.Machine.{Machine};
ghost use Rattle.gw_meaning.specs.Changes.{let_in, placed};
ghost use Rattle.gw_chains.specs.Chains.{IsWithin};

use crate::chain::PriorityChain;
use crate::counts::Counts;
use gw_meaning::{Destination, Fate, StatementId, Transaction};

/// The transaction stands in the block that it enters.
#[inline(always)]
pub fn place(x: &mut Transaction, id: StatementId)
    ensures { x.new ≡ placed x.old id }
{
    x.current = id;
    x.destination = Destination::none();
    x.asked = 0;
}

/// A transaction that waited at a block enters it, and goes to the current chain.
#[inline(always)]
pub fn let_in(current: &mut PriorityChain, counts: &mut Counts, mut x: Transaction)
    requires room { 0 < current.old.room }
    requires counts { IsWithin x.destination counts.old.limit }
    ensures let_in { (s : Machine) →
        record s { current = current.new.items; counts = counts.new.entries } ≡
        let_in x x.destination (record s { current = current.old.items; counts = counts.old.entries }) }
    ensures room { current.old.room ≤ current.new.room + 1 }
    ensures limit { counts.new.limit ≡ counts.old.limit }
{
    match x.destination.id() {
        Some(id) => {
            counts.cross(x.current, id, &Fate::Active);
            place(&mut x, id);
            current.line_up(x);
        }
        None => current.line_up(x),
    }
}
