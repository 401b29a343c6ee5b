//! How far a thread has come in its calls.
ghost use Rattle.std.specs.Prelude.{◌≡◌, ◌<◌, ◌^◌};
ghost use Rattle.thread_actor.specs.Progress as words;

/// How far a thread has come in its calls.
#[derive(Clone, Copy, Debug, PartialEq, Eq)]
pub(crate) struct Progress {
    /// How many calls are finished; the next one is under way, or begins next.
    pub finished: usize,
    /// How many completions the drain under way has taken; 0 in any other call.
    pub taken: u32,
}

impl Progress {
    /// At the first call.
    pub fn start() -> Progress
        ensures { result ≡ record { finished = 0; taken = 0 } }
    {
        Progress {
            finished: 0,
            taken: 0,
        }
    }

    /// At the next call.
    fn next(&self) -> Progress
        requires { self.now.finished < 2 ^ 16 }
        ensures { result ≡ words.next_after self.now }
    {
        Progress {
            finished: self.finished + 1,
            taken: 0,
        }
    }

    /// After an operation of a post, which was its last one or not.
    pub fn after_post(&self, is_over: bool) -> Progress
        requires { self.now.finished < 2 ^ 16 }
        ensures { result ≡ words.after_post self.now is_over }
    {
        if is_over { self.next() } else { *self }
    }

    /// After an operation of a poll, which is over where it tells how many completions it took.
    pub fn after_poll(&self, taken: Option<u32>) -> Progress
        requires { self.now.finished < 2 ^ 16 }
        ensures { result ≡ words.after_poll self.now taken }
    {
        match taken {
            None => *self,
            Some(_) => self.next(),
        }
    }

    /// After an operation of a poll in a drain of `count`. Where there was no completion, the drain looks again.
    pub fn after_drain(&self, count: u32, taken: Option<u32>) -> Progress
        requires { self.now.finished < 2 ^ 16 }
        ensures { result ≡ words.after_drain self.now count taken }
    {
        match taken {
            None | Some(0) => *self,
            Some(_) => self.after_one(count),
        }
    }

    /// After one more completion of a drain of `count`.
    fn after_one(&self, count: u32) -> Progress
        requires { self.now.finished < 2 ^ 16 }
        ensures { result ≡ words.after_one self.now count }
    {
        if (self.taken as u64) + 1 < count as u64 {
            Progress {
                finished: self.finished,
                taken: self.taken + 1,
            }
        } else {
            self.next()
        }
    }
}
