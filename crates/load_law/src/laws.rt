//! The law of the loads of a poll.
ghost use Rattle.load_law.specs.Law.{LoadsCome};

/// Each operation that the rule of a poll allows while it loads comes to one of its outcomes: the poll goes on, it has
/// taken completions and says which, or it has found none and says so.
pub fn loads_come()
    ensures { LoadsCome }
{}
