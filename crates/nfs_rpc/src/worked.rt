//! Worked values of the definitions, proved by computing them.

ghost use Rattle.nfs_rpc.specs.Worked.{WorkedCalls, WorkedFaults, WorkedRecords};

/// A record in one fragment and in several, what is no record yet, and a stream of two.
pub fn worked_records()
    ensures { WorkedRecords }
{}

/// How records end early, each by its first fault.
pub fn worked_faults()
    ensures { WorkedFaults }
{}

/// Who calls what.
pub fn worked_calls()
    ensures { WorkedCalls }
{}
