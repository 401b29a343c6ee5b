//! Laws of the adapter that hold with no code.
ghost use Rattle.device_engine.specs.Counts.{CountsGrow};
ghost use Rattle.device_engine.specs.Laws.{WantAsAsked};
ghost use Rattle.device_engine.specs.Visit.{VisitsAreWhole};

/// The words of a NOP's entry want a completion where the request does.
pub fn want_as_asked()
    ensures { WantAsAsked }
{}

/// A visit of a queue pair loads its register once, and its record at most once. A request of a pair that may
/// send is taken in the visit where one is ready, and no other.
pub fn visits_are_whole()
    ensures { VisitsAreWhole }
{}

/// Counts and indices begin below 2^32 + 1, and rise by at most four an operation.
pub fn counts_grow()
    ensures { CountsGrow }
{}
