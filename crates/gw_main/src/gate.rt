// The workers' gate: open until the session is over.
use gw_serve::Gate;
use std::sync::Wait;
use std::sync::atomic::{AtomicU64, Ordering};
use std::time::Duration;

// A worker that finds nothing sleeps so many milliseconds at the most.
const LONGEST: u64 = 10;

/// A gate that is open until it is closed. A worker that finds nothing sleeps at it, longer each time.
#[derive(Drop)]
pub(crate) struct Open<'a, R: Wait> {
    rt: &'a R,
    // 0, or 1 where it is closed.
    closed: AtomicU64,
    // For each worker how often it found nothing since it last found a leg.
    naps: [AtomicU64; 16],
}

impl<'a, R: Wait> Open<'a, R> {
    /// An open gate.
    pub(crate) fn new(rt: &'a R) -> Open<'a, R> {
        Open {
            rt,
            closed: AtomicU64::new(0),
            naps: [
                AtomicU64::new(0),
                AtomicU64::new(0),
                AtomicU64::new(0),
                AtomicU64::new(0),
                AtomicU64::new(0),
                AtomicU64::new(0),
                AtomicU64::new(0),
                AtomicU64::new(0),
                AtomicU64::new(0),
                AtomicU64::new(0),
                AtomicU64::new(0),
                AtomicU64::new(0),
                AtomicU64::new(0),
                AtomicU64::new(0),
                AtomicU64::new(0),
                AtomicU64::new(0),
            ],
        }
    }

    /// Ends all workers; those that sleep wake at once.
    pub(crate) fn close(&self) {
        self.closed.store(1, Ordering::SeqCst);
        self.closed.wake_all();
    }

    fn is_open(&self) -> bool {
        self.closed.load(Ordering::SeqCst) == 0
    }
}

impl<'a, R: Wait> Gate for Open<'a, R> {
    fn working(&self, worker: u64, _replication: u64) -> bool {
        if let Some(naps) = self.naps.get(worker as usize) {
            naps.store(0, Ordering::SeqCst);
        }
        self.is_open()
    }

    fn idle(&self, worker: u64) -> bool {
        let mut millis = LONGEST;
        if let Some(naps) = self.naps.get(worker as usize) {
            millis = naps.load(Ordering::SeqCst).saturating_add(1).min(LONGEST);
            naps.store(millis, Ordering::SeqCst);
        }
        self.closed
            .park_timeout(self.rt, 0, Duration::from_millis(millis));
        self.is_open()
    }
}
