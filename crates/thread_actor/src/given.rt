//! The completions that a poll has given.
ghost use Rattle.std.specs.Prelude.{◌≡◌, ◌≤◌, [], IfOk, vec_capacity};
ghost use Rattle.actor_rules.specs.Polling.{given_after};
ghost use Rattle.thread_actor.specs.Polls.{HasRoomFor};

use bus_core::Step;
use provider_poll::PollAnswer;
use std::alloc::Global;
use std::marker::Model;
use verbs_types::{Completion, NoMemory};

/// The completions that the poll under way has given, in order: no more than the 16 that a poll may take.
#[derive(Drop)]
pub(crate) struct Given {
    completions: Vec<Completion>,
}

impl Model for Given {
    ghost use Rattle.std.specs.Prelude.{List};
    ghost use Rattle.verbs_types.specs.declared.completion.Completion.{Completion};

    ghost Value = { List Completion };

    ghost use Rattle.std.specs.Prelude.{◌≤◌, vec_capacity};

    ghost view = { λ g. g.completions.items };

    ghost invariant = { λ g. 16 ≤ vec_capacity g.completions };
}

impl Given {
    /// None yet.
    pub fn none(alloc: Global) -> Result<Given, NoMemory>
        ensures { IfOk result (λ given. given ≡ []) }
    {
        match Vec::with_capacity(alloc, 16) {
            Ok(completions) => Ok(Given { completions }),
            Err(_) => Err(NoMemory),
        }
    }

    /// After an operation that was answered so: with the completion that it gave, and none where the poll is over.
    pub fn follow(&mut self, answer: Step<Completion, PollAnswer>)
        requires { HasRoomFor self.old answer }
        ensures { self.new ≡ given_after self.old answer }
    {
        match answer {
            Step::More => {}
            Step::Gave(completion) => self.completions.push_reserved(completion),
            Step::Done(_) => self.completions.clear(),
        }
    }
}
