//! A history.

use crate::requests::{SEND, nop, nop_completion};
use std::alloc::{AllocError, Global};
use verbs_types::{ADAPTER, Completion, Entry, Item, Sequence, What};

/// Thread `a` posts two requests without operation, of which the second wants a completion. Thread `b`
/// polls before that and finds nothing, and then takes the completion.
///
/// ```text
/// b poll c 1 empty
/// a post q.s + 7 nop - + 8 nop c
/// dev fetch q.s 1
/// dev fetch q.s 2
/// dev publish c q.s:8:0:nop:0:-:-
/// b poll c 1 q.s:8:0:nop:0:-:-
/// b retire q.s 2
/// b ack c 1
/// ```
pub fn two_nops(alloc: Global) -> Result<Vec<Entry>, AllocError> {
    let mut history = Vec::new(alloc);
    history.push(polled(Vec::new(alloc)))?;
    history.push(posted(alloc)?)?;
    history.push(fetched(1))?;
    history.push(fetched(2))?;
    history.push(published())?;
    history.push(polled(Vec::from_array(alloc, [nop_completion(8)])?))?;
    history.push(retired())?;
    history.push(acknowledged())?;
    Ok(history)
}

fn posted(alloc: Global) -> Result<Entry, AllocError> {
    let mut items = Vec::new(alloc);
    items.push(Item::Request(nop(alloc, 7, false)))?;
    items.push(Item::Request(nop(alloc, 8, true)))?;
    Ok(Entry {
        actor: 1,
        what: What::Post {
            queue: SEND,
            items: Sequence::from_vec(items),
        },
    })
}

fn polled(completions: Vec<Completion>) -> Entry {
    Entry {
        actor: 2,
        what: What::Poll {
            cq: 0,
            max: 1,
            completions: Sequence::from_vec(completions),
        },
    }
}

fn fetched(number: u64) -> Entry {
    Entry {
        actor: ADAPTER,
        what: What::Fetch {
            queue: SEND,
            number,
        },
    }
}

fn published() -> Entry {
    Entry {
        actor: ADAPTER,
        what: What::Publish {
            cq: 0,
            completion: nop_completion(8),
        },
    }
}

fn retired() -> Entry {
    Entry {
        actor: 2,
        what: What::Retire {
            queue: SEND,
            count: 2,
        },
    }
}

fn acknowledged() -> Entry {
    Entry {
        actor: 2,
        what: What::Ack { cq: 0, index: 1 },
    }
}
