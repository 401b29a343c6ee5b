//! What holds of every legal history.
ghost use Rattle.history_laws.specs.Laws.{IdsComeBack, EachWasPosted, NoneIsLost, NoneIsForgotten, AllComeBack};

/// The completions that polls took of a work queue's requests come back in the order of posting, each with its
/// request's id. No request is completed twice, and none that wants a completion is passed over.
pub fn ids_come_back()
    ensures { IdsComeBack }
{}

/// Each completion that a poll takes has the id of a request that was posted on its work queue before.
pub fn each_was_posted()
    ensures { EachWasPosted }
{}

/// Every completion that was written to a completion queue was taken by a poll of it, in order, or waits there.
pub fn none_is_lost()
    ensures { NoneIsLost }
{}

/// Every request that the adapter took and that wants a completion has one, written or still owed.
pub fn none_is_forgotten()
    ensures { NoneIsForgotten }
{}

/// Where all requests of a work queue were taken and no completion is owed or waits, each request that wants a
/// completion has had exactly one.
pub fn all_come_back()
    ensures { AllComeBack }
{}
