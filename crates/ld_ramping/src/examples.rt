ghost use Rattle.ld_ramping.specs.Examples.{AreCounted, AreWorked};

/// The intervals of users in worked examples.
pub fn worked_ramps()
    ensures { AreWorked }
{}

/// How many users are on at moments of worked examples.
pub fn worked_counts()
    ensures { AreCounted }
{}
