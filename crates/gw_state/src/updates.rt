// What an update makes of an entity: at a clock, where the transaction with a number enters the block.
ghost use Rattle.std.specs.Prelude.{◌≡◌};
ghost use Rattle.gw_meaning.specs.Entities.{all_entered, done_to_facility, done_to_queue};

use gw_entities::{Facility, Queue, Storage};
use gw_meaning::{FacilityUpdate, QueueUpdate};
use gw_nums::Clock;

#[inline(always)]
pub fn done_to_facility(
    update: FacilityUpdate,
    clock: Clock,
    number: u64,
    facility: Facility,
) -> Facility
    ensures { result ≡ done_to_facility update clock number facility }
{
    let mut facility = facility;
    match update {
        FacilityUpdate::Seize => facility.seize(number, clock),
        FacilityUpdate::Release { next } => {
            facility.release(clock);
            if let Some(next) = next {
                facility.seize(next, clock);
            }
        }
    }
    facility
}

#[inline(always)]
pub fn done_to_queue(update: QueueUpdate, clock: Clock, queue: Queue) -> Queue
    ensures { result ≡ done_to_queue update clock queue }
{
    let mut queue = queue;
    match update {
        QueueUpdate::Queue { units } => queue.enter(units, clock),
        QueueUpdate::Depart { units, at_once } => queue.depart(units, clock, at_once),
    }
    queue
}

// The units of each share come into use, one by one.
#[inline(never)]
pub(crate) fn enter_all(storage: &mut Storage, grants: &[Option<u64>], clock: Clock)
    ensures { storage.new ≡ all_entered grants.now clock storage.old }
{
    for grant in grants {
        if let Some(units) = grant {
            storage.enter(*units, clock);
        }
    }
}
