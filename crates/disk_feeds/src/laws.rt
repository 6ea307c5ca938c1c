//! Laws of what a cycle got.

ghost use Rattle.std.specs.Prelude.{◌≡◌, ℕ, ◌+◌, ◌<◌, ◌≤◌, [], List, Some, length, slice_get, true};
ghost use Rattle.session_model.specs.State.{OpenClient};
ghost use Rattle.driver_words.specs.Rings.{Getting};
ghost use Rattle.driver_laws.specs.Cycling.{GetsOne};
ghost use Rattle.driver_laws.specs.Drivers.{Driver, run, underruns_on};
ghost use Rattle.driver_laws.specs.Playing.{fed_now};
ghost use Rattle.disk_feeds.specs.Cycling.{GetsAll, HasFeeds, is_fed};
ghost use Rattle.driver_words.specs.Feeding.{AreCounted, AreForPeriods, AreUpTo, Fed, HasNoDisks, MayGet, fed_at, no_disks};
ghost use Rattle.disk_feeds.specs.Openings.{IsNew};

/// Of each ring of a driver a cycle gets one block, finds its end, or misses one.
pub fn a_cycle_gets_one_block_of_each_ring()
    ensures { (nodes : List OpenClient) (cycle : ℕ) (before after : Fed) → GetsAll nodes cycle before after → (disk : ℕ) (got got_after : Getting) → slice_get before.disks disk ≡ Some got → slice_get after.disks disk ≡ Some got_after
        → GetsOne cycle disk (is_fed nodes disk) got got_after (underruns_on before.underruns disk) (underruns_on after.underruns disk) }
{}

/// What a disk's player has in a cycle is what the driver's cycle gives it, where its earlier underruns are
/// of earlier cycles.
pub fn a_player_is_given_what_was_got()
    ensures { (nodes : List OpenClient) (before after : Fed) (driver driver_after : Driver) → GetsAll nodes (run driver + 1) before after → HasFeeds before driver → HasFeeds after driver_after
        → AreUpTo (run driver) before → (disk : ℕ) → disk < length before.disks → is_fed nodes disk ≡ true → fed_at after disk ≡ fed_now driver driver_after disk }
{}

/// The rings stay those of their periods, and underruns are of the cycles so far.
pub fn a_cycle_leaves_the_disks_ready()
    ensures periods { (nodes : List OpenClient) (cycle : ℕ) (before after : Fed) → GetsAll nodes cycle before after → AreForPeriods before → AreForPeriods after }
    ensures underruns { (nodes : List OpenClient) (k : ℕ) (before after : Fed) → GetsAll nodes (k + 1) before after → AreUpTo k before → AreUpTo (k + 1) after }
{}

/// New rings are those of their periods, nothing was got of them, and nothing missed.
pub fn new_disks_are_ready()
    ensures periods { (channels : List ℕ) (capacity period misses : ℕ) (seen : Fed) → IsNew channels capacity period misses seen → AreForPeriods seen }
    ensures counted { (channels : List ℕ) (capacity period misses : ℕ) (seen : Fed) → IsNew channels capacity period misses seen → AreCounted seen }
    ensures underruns { (channels : List ℕ) (capacity period misses : ℕ) (seen : Fed) → IsNew channels capacity period misses seen → AreUpTo 0 seen }
    ensures none { (capacity period misses : ℕ) (seen : Fed) → IsNew [] capacity period misses seen → HasNoDisks seen }
{}

/// Where there is no disk, a cycle gets nothing.
pub fn a_cycle_without_disks_gets_nothing()
    ensures none { HasNoDisks no_disks }
    ensures may { (seen : Fed) → HasNoDisks seen → length seen.underruns ≤ seen.misses → MayGet seen }
    ensures gets { (nodes : List OpenClient) (cycle : ℕ) (seen : Fed) → HasNoDisks seen → GetsAll nodes cycle seen seen }
    ensures nothing { (nodes : List OpenClient) (cycle : ℕ) (seen after : Fed) → HasNoDisks seen → GetsAll nodes cycle seen after → after ≡ seen }
{}
