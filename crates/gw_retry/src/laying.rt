ghost use Rattle.std.specs.List.Sorted.{IsPermutation};
ghost use Rattle.gw_retry.specs.Groups.{AreGrouped};
ghost use Rattle.gw_retry.specs.Waiting.{arrivals_of, AreListed};

use crate::groups::join;
use crate::lists::ReadLists;
use crate::readings::SharedReadings;
use crate::retry::Waiting;
use gw_shared::SharedList;
use std::alloc::AllocError;

// The lists of those who wait alone are kept from now on, with marks of these alone. The waiters get the places that
// their lists have then, and join the groups of these one after another.
pub(crate) fn lay_anew(
    waiting: &mut SharedList<Waiting>,
    readings: &mut SharedReadings,
) -> Result<(), AllocError>
    requires listed { AreListed readings.old waiting.old.items }
    requires grouped { AreGrouped waiting.old.items }
    ensures listed { AreListed readings.new waiting.new.items }
    ensures grouped { AreGrouped waiting.new.items }
    ensures same { IsPermutation (arrivals_of readings.old.lists waiting.old.items)
        (arrivals_of readings.new.lists waiting.new.items) }
{
    let alloc = readings.allocator();
    let mut lists = ReadLists::new(alloc);
    let mut anew = SharedList::new(alloc);
    anew.reserve(waiting.len())?;
    for index in 0..waiting.len() {
        let waiter = *waiting.at(index);
        let place = lists.learn_copy(readings.list(waiter.place))?;
        join(&mut anew, Waiting { place, ..waiter });
    }
    *waiting = anew;
    *readings = SharedReadings::of(lists);
    Ok(())
}
