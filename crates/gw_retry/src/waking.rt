ghost use Rattle.std.specs.Prelude.{◌≡◌, ◌≤◌, ◌+◌, ◌++◌, length, map, vec_len, vec_capacity};
ghost use Rattle.std.specs.List.{list_any};
ghost use Rattle.std.specs.List.Sorted.{IsPermutation, IsNonDecreasingBy};
ghost use Rattle.gw_meaning.specs.declared.watched.Watched.{Watched};
ghost use Rattle.gw_meaning.specs.Watching.{is_watched};
ghost use Rattle.gw_meaning.specs.Changes.{all_lined_up};
ghost use Rattle.gw_retry.specs.Groups.{AreGrouped};
ghost use Rattle.gw_retry.specs.Waiting.{woken_of, others_of, AreListed};

use crate::groups::{count_group, take_group};
use crate::readings::SharedReadings;
use crate::retry::Waiting;
use gw_chains::PriorityChain;
use gw_meaning::Watched;
use gw_shared::SharedList;

// Whether it stands in a list.
fn is_in(list: &[Watched], thing: &Watched) -> bool
    ensures { result ≡ is_watched list.now thing.now }
{
    list.iter().any(|other| *thing == *other)
}

// Whether anything of a list is written.
fn is_written(read: &[Watched], written: &[Watched]) -> bool
    ensures { result ≡ list_any (is_watched written.now) read.now }
{
    read.iter().any(|thing| is_in(written, thing))
}

// How many waiters read anything that is written.
pub(crate) fn count_woken(
    waiting: &SharedList<Waiting>,
    readings: &SharedReadings,
    written: &[Watched],
) -> usize
    requires listed { AreListed readings.now waiting.now.items }
    requires grouped { AreGrouped waiting.now.items }
    ensures { result ≡ length (woken_of readings.now.lists written.now waiting.now.items) }
{
    let mut count = 0;
    for place in 0..readings.len() {
        if is_written(readings.list(place), written) {
            count += count_group(waiting, place);
        }
    }
    count
}

// Those who read anything that is written are taken out group by group, and come after others that were. Each list is
// asked once, and no waiter.
pub(crate) fn take_woken(
    waiting: &mut SharedList<Waiting>,
    readings: &SharedReadings,
    written: &[Watched],
    going: &mut Vec<Waiting>,
)
    requires listed { AreListed readings.now waiting.old.items }
    requires grouped { AreGrouped waiting.old.items }
    requires room { length (woken_of readings.now.lists written.now waiting.old.items) ≤ waiting.old.room }
    requires capacity { vec_len going.old + length (woken_of readings.now.lists written.now waiting.old.items)
        ≤ vec_capacity going.old }
    ensures going { going.new.items ≡ going.old.items ++ woken_of readings.now.lists written.now waiting.old.items }
    ensures waiting { waiting.new.items ≡ others_of readings.now.lists written.now waiting.old.items }
{
    for place in 0..readings.len() {
        if is_written(readings.list(place), written) {
            take_group(waiting, place, going);
        }
    }
}

// Puts some in order of coming. Those of one group are in order already, which the sort sees at once.
pub(crate) fn sort_by_order(going: &mut Vec<Waiting>)
    ensures moved { IsPermutation going.old.items going.new.items }
    ensures sorted { IsNonDecreasingBy (λ (w : Waiting). w.order) going.new.items }
{
    going.sort_unstable_by_key(|waiter| waiter.order);
}

// Some line up on the current chain, one after another.
pub(crate) fn line_up_all(going: &[Waiting], current: &mut PriorityChain)
    requires { length going.now ≤ current.old.room }
    ensures { current.new.items ≡ all_lined_up (map (λ (w : Waiting). w.transaction) going.now) current.old.items }
{
    for index in 0..going.len() {
        current.line_up(going[index].transaction);
    }
}
