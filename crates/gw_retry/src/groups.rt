ghost use Rattle.std.specs.Prelude.{◌≡◌, ◌≤◌, ◌<◌, ◌+◌, ◌^◌, ◌++◌, suc, not, length, filter, vec_len, vec_capacity};
ghost use Rattle.gw_retry.specs.Groups.{AreGrouped, is_at, IsCut, IsJoined};

use crate::retry::Waiting;
use gw_shared::SharedList;

// Where the group at a place ends, and those in front of it. A newcomer mostly belongs to the last group.
fn end_of(waiting: &SharedList<Waiting>, place: usize) -> usize
    requires { AreGrouped waiting.now.items }
    ensures cut { IsCut (suc place) waiting.now.items result }
    ensures bound { length waiting.now.items < 2 ^ 63 }
{
    let count = waiting.len();
    if count == 0 || waiting.at(count - 1).place <= place {
        return count;
    }
    halved(waiting, place)
}

// The same, found by halves.
fn halved(waiting: &SharedList<Waiting>, place: usize) -> usize
    requires { AreGrouped waiting.now.items }
    ensures { IsCut (suc place) waiting.now.items result }
{
    let mut low = 0;
    let mut high = waiting.len();
    while low < high {
        let middle = low + (high - low) / 2;
        if waiting.at(middle).place <= place {
            low = middle + 1;
        } else {
            high = middle;
        }
    }
    low
}

// Where the group at a place begins, and those after it.
fn start_of(waiting: &SharedList<Waiting>, place: usize) -> usize
    requires { AreGrouped waiting.now.items }
    ensures { IsCut place waiting.now.items result }
{
    if place == 0 {
        return 0;
    }
    end_of(waiting, place - 1)
}

// How many are in the group at a place.
pub(crate) fn count_group(waiting: &SharedList<Waiting>, place: usize) -> usize
    requires { AreGrouped waiting.now.items }
    ensures count { result ≡ length (filter (is_at place) waiting.now.items) }
    ensures bound { length waiting.now.items < 2 ^ 63 }
{
    let start = start_of(waiting, place);
    end_of(waiting, place) - start
}

// One more waits, after the others of its group. There is room for it.
pub(crate) fn join(waiting: &mut SharedList<Waiting>, waiter: Waiting)
    requires grouped { AreGrouped waiting.old.items }
    requires room { 0 < waiting.old.room }
    ensures joined { IsJoined waiter waiting.old.items waiting.new.items }
    ensures room { waiting.old.room ≤ waiting.new.room + 1 }
{
    let end = end_of(waiting, waiter.place);
    waiting.insert(end, waiter);
}

// The group at a place is taken out, and comes after others that were.
pub(crate) fn take_group(waiting: &mut SharedList<Waiting>, place: usize, going: &mut Vec<Waiting>)
    requires grouped { AreGrouped waiting.old.items }
    requires room { length (filter (is_at place) waiting.old.items) ≤ waiting.old.room }
    requires capacity { vec_len going.old + length (filter (is_at place) waiting.old.items) ≤ vec_capacity going.old }
    ensures going { going.new.items ≡ going.old.items ++ filter (is_at place) waiting.old.items }
    ensures len { vec_len going.new ≡ vec_len going.old + length (filter (is_at place) waiting.old.items) }
    ensures capacity { vec_capacity going.new ≡ vec_capacity going.old }
    ensures waiting { waiting.new.items ≡ filter (λ w. not (is_at place w)) waiting.old.items }
    ensures room { waiting.old.room ≤ waiting.new.room + length (filter (is_at place) waiting.old.items) }
{
    let start = start_of(waiting, place);
    let count = end_of(waiting, place) - start;
    waiting.take_run(start, count, going);
}
