//! A gate that holds threads.

use jack_host::Gate;
use std::hint;
use std::sync::atomic::{AtomicU64, Ordering};

// For how many turns a thread is held at most.
const MOST_TURNS: u64 = 300_000_000;

/// Which threads are held, and until when.
#[derive(Clone, Copy, Debug, PartialEq, Eq)]
pub enum Held {
    /// Cycle 3, until a call was made.
    Cycle,
    /// The lanes, until cycle 5 comes.
    Lanes,
    /// Each cycle, until a recorder's thread looked twice more for a block.
    EachCycle,
    /// A recorder's thread before its first look, until cycle 10 comes.
    Recorder,
    /// A disk file's thread before its first turn, until cycle 10 comes; from then on each cycle, until that thread had a whole turn.
    Disk,
    /// Each client, until two of a cycle are about to play.
    Clients,
    /// The clients at the places 0 and 2, which are of one worker's share where there are two, until both are about to play.
    Pair,
}

/// Holds threads at one of its calls until others of its calls came, and tells how often it gave that up.
#[derive(Drop)]
pub struct HoldingGate {
    held: Held,
    turns: u64,
    cycles: AtomicU64,
    calls: AtomicU64,
    blocks: AtomicU64,
    reads: AtomicU64,
    clients: AtomicU64,
    pair: AtomicU64,
    given_up: AtomicU64,
}

impl HoldingGate {
    pub fn new(held: Held) -> HoldingGate {
        HoldingGate::with_turns(held, MOST_TURNS)
    }

    /// A gate that holds a thread for so many turns at most.
    pub fn with_turns(held: Held, turns: u64) -> HoldingGate {
        HoldingGate {
            held,
            turns,
            cycles: AtomicU64::new(0),
            calls: AtomicU64::new(0),
            blocks: AtomicU64::new(0),
            reads: AtomicU64::new(0),
            clients: AtomicU64::new(0),
            pair: AtomicU64::new(0),
            given_up: AtomicU64::new(0),
        }
    }

    /// How often a thread was held for all turns.
    pub fn given_up(&self) -> u64 {
        self.given_up.load(Ordering::SeqCst)
    }

    // Holds this thread until a count has come so far.
    fn hold(&self, count: &AtomicU64, least: u64) {
        for _ in 0..self.turns {
            if count.load(Ordering::SeqCst) >= least {
                return;
            }
            hint::spin_loop();
        }
        self.given_up.fetch_add(1, Ordering::SeqCst);
    }
}

impl Gate for HoldingGate {
    fn before_cycle(&self, cycle: u32) {
        self.cycles.store(u64::from(cycle), Ordering::SeqCst);
        match self.held {
            Held::Cycle if cycle == 3 => self.hold(&self.calls, 1),
            Held::EachCycle => {
                let looks = self.blocks.load(Ordering::SeqCst);
                self.hold(&self.blocks, looks.saturating_add(2));
            }
            Held::Disk if cycle >= 10 => {
                let reads = self.reads.load(Ordering::SeqCst);
                self.hold(&self.reads, reads.saturating_add(2));
            }
            _ => (),
        }
    }

    fn before_call(&self, _lane: u8, _index: u32) {
        if self.held == Held::Lanes {
            self.hold(&self.cycles, 5);
        }
    }

    fn after_call(&self, _lane: u8, _index: u32) {
        self.calls.fetch_add(1, Ordering::SeqCst);
    }

    fn before_client(&self, _worker: u32, node: u32) {
        self.clients.fetch_add(1, Ordering::SeqCst);
        match self.held {
            Held::Clients => self.hold(&self.clients, 2),
            Held::Pair if node == 0 || node == 2 => {
                self.pair.fetch_add(1, Ordering::SeqCst);
                self.hold(&self.pair, 2);
            }
            _ => (),
        }
    }

    fn before_block(&self, _recorder: u8) {
        let looks = self.blocks.fetch_add(1, Ordering::SeqCst);
        if self.held == Held::Recorder && looks == 0 {
            self.hold(&self.cycles, 10);
        }
    }

    fn before_turn(&self, _disk: u8) {
        let reads = self.reads.fetch_add(1, Ordering::SeqCst);
        if self.held == Held::Disk && reads == 0 {
            self.hold(&self.cycles, 10);
        }
    }
}
