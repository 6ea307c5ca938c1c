//! What holds behind the lanes.

ghost use Rattle.desk_turn.specs.Laws.{AllBehind, DoneBehind};

/// Behind the lanes the turn has all its passes; where none was told that the work is off, no lane has a call left.
pub fn behind_the_lanes()
    ensures all { AllBehind }
    ensures done { DoneBehind }
{}
