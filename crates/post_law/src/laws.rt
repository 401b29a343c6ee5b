//! The law of calls that post.
ghost use Rattle.std.specs.Prelude.{List};
ghost use Rattle.verbs_rules.specs.Within.{Bounds};
ghost use Rattle.verbs_types.specs.declared.call.Call.{Call};
ghost use Rattle.verbs_types.specs.declared.declaration.Lines.{Lines};
ghost use Rattle.actor_rules.specs.Holding.{IsMapped};
ghost use Rattle.post_law.specs.Law.{PostsGo};

/// Each operation that the rule of a thread allows in a call that posts keeps what holds between operations. What it
/// says, if anything, is a legal step that the thread owed, and the tail that the thread has seen serves for it.
pub fn posts_go()
    ensures { (d : Lines) (programs : List (List Call)) (bounds : Bounds) → IsMapped d → PostsGo d programs bounds }
{}
