//! How the desk hears that the servers have ended.

use std::sync::Wait;
use std::sync::atomic::{AtomicBool, Ordering};
use std::thread::Parker;
use std::time::Duration;

/// The longest that the desk sleeps while the servers run, in microseconds. They have the queue for themselves
/// meanwhile.
const LONGEST_SLEEP: u64 = 200;

/// Whether the servers have ended. The desk sleeps on it if it has found no note.
///
/// The desk does not sleep past their end: that is said before the desk is woken, so a wake that comes while the desk
/// is about to sleep keeps it awake, and one that comes as a sleep ends is not needed.
#[derive(Drop)]
pub struct Ending {
    told: AtomicBool,
    desk: Parker,
}

impl Ending {
    pub const fn new() -> Ending {
        Ending {
            told: AtomicBool::new(false),
            desk: Parker::new(),
        }
    }

    /// Says that the servers have ended, and wakes the desk if it sleeps.
    pub fn tell(&self) {
        self.told.store(true, Ordering::SeqCst);
        self.desk.unpark();
    }

    pub fn is_told(&self) -> bool {
        self.told.load(Ordering::SeqCst)
    }

    /// Sleeps for `LONGEST_SLEEP`, or until the servers have ended if that is sooner. It may also end for no reason.
    pub fn sleep<R: Wait>(&self, rt: &R) {
        self.desk
            .park_timeout(rt, Duration::from_micros(LONGEST_SLEEP));
    }
}
