// Which replications are in hand.
use std::alloc::{AllocError, Global};
use std::sync::atomic::{AtomicU64, Ordering};

// One place for each worker and one for all seats.
const PLACES: usize = 17;

// The place of those who are no workers.
pub(crate) const SEATS: usize = 16;

// Which replications are being worked, and by whom. It is a hint: no answer depends on it.
#[derive(Drop)]
pub(crate) struct Hands {
    // A replication's number, or 0, which is none's.
    at: Vec<AtomicU64>,
}

impl Hands {
    // Nothing is in hand.
    pub(crate) fn new(alloc: Global) -> Result<Hands, AllocError> {
        let mut at = Vec::with_capacity(alloc, PLACES)?;
        for _ in 0..PLACES {
            at.push(AtomicU64::new(0))?;
        }
        Ok(Hands { at })
    }

    // From now on this replication is in hand at a place; 0: none is. Places from 17 on are not kept.
    pub(crate) fn begin(&self, place: usize, rep: u64) {
        if let Some(hand) = self.at.get(place) {
            hand.store(rep, Ordering::SeqCst);
        }
    }

    // Whether somebody has this replication in hand.
    pub(crate) fn are_on(&self, rep: u64) -> bool {
        for hand in self.at.as_slice() {
            if hand.load(Ordering::SeqCst) == rep {
                return true;
            }
        }
        false
    }
}
