//! Gates that hold threads, and that keep what they saw.

use jack_host::Gate;
use std::sync::atomic::{AtomicU64, Ordering};

/// Counts how many clients were played by other seats than the first.
#[derive(Drop)]
pub struct Others {
    played: AtomicU64,
}

impl Others {
    pub fn new() -> Others {
        Others {
            played: AtomicU64::new(0),
        }
    }

    /// Whether there was one.
    pub fn took_part(&self) -> bool {
        self.played.load(Ordering::SeqCst) > 0
    }
}

impl Gate for Others {
    fn before_cycle(&self, _cycle: u32) {}

    fn before_call(&self, _lane: u8, _index: u32) {}

    fn after_call(&self, _lane: u8, _index: u32) {}

    fn before_client(&self, worker: u32, _node: u32) {
        if worker != 0 {
            self.played.fetch_add(1, Ordering::SeqCst);
        }
    }

    fn before_block(&self, _recorder: u8) {}

    fn before_turn(&self, _disk: u8) {}
}

/// Lets no client play until two have arrived.
#[derive(Drop)]
pub struct Meeting {
    arrived: AtomicU64,
    met: AtomicU64,
}

impl Meeting {
    pub fn new() -> Meeting {
        Meeting {
            arrived: AtomicU64::new(0),
            met: AtomicU64::new(0),
        }
    }

    /// How many clients met another one.
    pub fn met(&self) -> u64 {
        self.met.load(Ordering::SeqCst)
    }
}

impl Gate for Meeting {
    fn before_cycle(&self, _cycle: u32) {}

    fn before_call(&self, _lane: u8, _index: u32) {}

    fn after_call(&self, _lane: u8, _index: u32) {}

    fn before_client(&self, _worker: u32, _node: u32) {
        self.arrived.fetch_add(1, Ordering::SeqCst);
        if comes_to(&self.arrived, 2) {
            self.met.fetch_add(1, Ordering::SeqCst);
        }
    }

    fn before_block(&self, _recorder: u8) {}

    fn before_turn(&self, _disk: u8) {}
}

/// Lets two seats share the nodes that one of them took: node 0 waits for node 3, node 3 for node 1 or 2, and these for each
/// other.
#[derive(Drop)]
pub struct Handover {
    last: AtomicU64,
    shared: AtomicU64,
    met: AtomicU64,
}

impl Handover {
    pub fn new() -> Handover {
        Handover {
            last: AtomicU64::new(0),
            shared: AtomicU64::new(0),
            met: AtomicU64::new(0),
        }
    }

    /// How many of nodes 1 and 2 met the other one.
    pub fn met(&self) -> u64 {
        self.met.load(Ordering::SeqCst)
    }
}

impl Gate for Handover {
    fn before_cycle(&self, _cycle: u32) {}

    fn before_call(&self, _lane: u8, _index: u32) {}

    fn after_call(&self, _lane: u8, _index: u32) {}

    fn before_client(&self, _worker: u32, node: u32) {
        match node {
            0 => {
                comes_to(&self.last, 1);
            }
            3 => {
                self.last.fetch_add(1, Ordering::SeqCst);
                comes_to(&self.shared, 1);
            }
            _ => {
                self.shared.fetch_add(1, Ordering::SeqCst);
                if comes_to(&self.shared, 2) {
                    self.met.fetch_add(1, Ordering::SeqCst);
                }
            }
        }
    }

    fn before_block(&self, _recorder: u8) {}

    fn before_turn(&self, _disk: u8) {}
}

// Whether a counter comes so far, in the time of so many looks.
fn comes_to(counter: &AtomicU64, number: u64) -> bool {
    for _ in 0..4_000_000_000_u64 {
        if counter.load(Ordering::SeqCst) >= number {
            return true;
        }
    }
    false
}
