//! What the receiver of a link sleeps on.

use std::sync::Wait;
use std::sync::atomic::{AtomicU64, Ordering};

/// The receiver does not sleep.
const AWAKE: u64 = 0;

/// The receiver sleeps, or is about to.
const ASLEEP: u64 = 1;

/// Whether the receiver of a link sleeps until a message is put.
///
/// No wake is lost. The sender puts its message and then reads this word; the receiver writes that it sleeps and then
/// looks for the message once more. All four steps have one order, since each is sequentially consistent. If that
/// look comes before the put, so does the write before it, and the sender reads that the receiver sleeps. It then
/// writes that the receiver is awake, and wakes it. A sleep begins only while the word says that the receiver sleeps,
/// so that a wake before it keeps it from sleeping.
#[derive(Drop)]
pub struct Sleeper {
    state: AtomicU64,
}

impl Sleeper {
    pub const fn new() -> Sleeper {
        Sleeper {
            state: AtomicU64::new(AWAKE),
        }
    }

    /// Says that the receiver is about to sleep. It looks for its message after this, and sleeps only if there is none.
    pub fn lie_down(&self) {
        self.state.store(ASLEEP, Ordering::SeqCst);
    }

    /// Sleeps until the sender wakes the receiver, unless it has done so since the receiver lay down. It may also end
    /// for no reason.
    pub fn sleep<R: Wait>(&self, rt: &R) {
        self.state.park(rt, ASLEEP as u32);
    }

    /// Says that the receiver does not sleep, so that no wake is made for it.
    pub fn get_up(&self) {
        self.state.store(AWAKE, Ordering::SeqCst);
    }

    /// Wakes the receiver if it sleeps. If it does not, this only reads.
    pub fn wake(&self) {
        let state = &self.state;
        if state.load(Ordering::SeqCst) == ASLEEP && state.swap(AWAKE, Ordering::SeqCst) == ASLEEP {
            state.wake_one();
        }
    }
}
