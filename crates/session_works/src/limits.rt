//! How many blocks leave a ring, and how many go into one.

/// How many blocks a ring has room for; how many leave a recorder's ring behind a `run` cycle of serial mode, and how many go
/// into a disk's ring before one.
#[derive(Clone, Copy)]
pub struct RingLimits {
    pub ring: u32,
    pub drain: u32,
    pub fill: u32,
}

impl RingLimits {
    ghost use Rattle.std.specs.Prelude.{◌≡◌, if◌then◌else◌};

    /// How many blocks leave a ring around a cycle at most: of a freewheel cycle all.
    pub(crate) fn most(self, freewheel: bool) -> u32
        ensures { result ≡ (if freewheel then self.ring else self.drain) }
    {
        if freewheel { self.ring } else { self.drain }
    }

    /// How many blocks go into a ring before a cycle at most: before a freewheel cycle as many as it holds.
    pub(crate) fn most_filled(self, freewheel: bool) -> u32
        ensures { result ≡ (if freewheel then self.ring else self.fill) }
    {
        if freewheel { self.ring } else { self.fill }
    }
}
