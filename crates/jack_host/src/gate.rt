/// Where tests may hold threads. The calls promise nothing, and nothing rests on them.
///
/// A test's gate holds a thread for a stated number of turns, and so brings about an order of steps that
/// free threads seldom take.
pub trait Gate: Sync {
    /// Is called before the graph of this cycle is taken, counted from 1.
    fn before_cycle(&self, cycle: u32);

    /// Is called before the turn is asked for, for a step of the lane's call of this index, at each try.
    fn before_call(&self, lane: u8, index: u32);

    /// Is called after the turn is given back, where the lane's call of this index was made.
    fn after_call(&self, lane: u8, index: u32);

    /// Is called before a client plays, with the number of the worker's seat and of the node.
    fn before_client(&self, worker: u32, node: u32);

    /// Is called before a recorder's thread looks for its next block.
    fn before_block(&self, recorder: u8);

    /// Is called before each turn of a disk's reading thread.
    fn before_turn(&self, disk: u8);
}

/// The gate that holds nobody.
#[derive(Clone, Copy, Debug, PartialEq, Eq)]
pub struct FreeGate;

impl Gate for FreeGate {
    fn before_cycle(&self, _cycle: u32) {}

    fn before_call(&self, _lane: u8, _index: u32) {}

    fn after_call(&self, _lane: u8, _index: u32) {}

    fn before_client(&self, _worker: u32, _node: u32) {}

    fn before_block(&self, _recorder: u8) {}

    fn before_turn(&self, _disk: u8) {}
}
