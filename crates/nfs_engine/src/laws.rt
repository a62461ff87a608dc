//! Laws over the steps of an engine: each is the contract of a function that does nothing.

ghost use Rattle.nfs_engine.specs.EngineLaws.{OthersLeaveOn, OthersLiveOn};

/// What a step of one call leaves of the others is enough that each of them lives on: what it has read still stands.
pub fn others_live_on()
    ensures { OthersLiveOn }
{}

/// And each other call that left still holds what it held.
pub fn others_leave_on()
    ensures { OthersLeaveOn }
{}
