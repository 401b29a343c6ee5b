//! A thread's calls to post, one after another.
ghost use Rattle.std.specs.Prelude.{◌≡◌, ◌≢◌, ◌==◌, [], ◌∷◌, List, IfOk, MatchBool, take, map};
ghost use Rattle.verbs_types.specs.declared.request.Item.{Item};
ghost use Rattle.verbs_types.specs.declared.request.Item.TheVariants.{Request as TheRequest, Receive as TheReceive};
ghost use Rattle.noted_history.specs.Posting.{IsNext, TakesNext, list_of, lists_from};

use std::alloc::{AllocError, Global};
use verbs_types::{Call, Item, NoMemory, Receive, Request};

/// How many of a thread's calls are behind, where calls that do not post are passed over. A call that posts is behind
/// once its last entry is told.
#[derive(Clone, Copy, Debug, PartialEq, Eq)]
pub struct Posting {
    pub behind: usize,
}

impl Posting {
    /// Before the first call.
    pub fn first() -> Posting
        ensures { result.behind ≡ 0 }
    {
        Posting { behind: 0 }
    }

    /// The first `count` items of the next call that posts, which is over; fewer where it has fewer.
    pub fn post(
        &mut self,
        alloc: Global,
        calls: &[Call],
        count: usize,
    ) -> Result<Vec<Item>, NoMemory>
        requires left { lists_from calls.now self.old.behind ≢ [] }
        ensures { (items : List Item) × TakesNext calls.now self.old.behind self.new.behind items × IfOk result (λ v. v.items ≡ take count items) }
    {
        let place = self.place(calls);
        self.behind = place + 1;
        items_of(alloc, &calls[place], count)
    }

    /// The next call that posts found its queue full after `accepted` items. Where these are none it is over.
    pub fn refuse(&mut self, calls: &[Call], accepted: u64)
        requires left { lists_from calls.now self.old.behind ≢ [] }
        ensures { MatchBool (accepted == 0) ((items : List Item) × TakesNext calls.now self.old.behind self.new.behind items) (self.new.behind ≡ self.old.behind) }
    {
        if accepted == 0 {
            self.behind = self.place(calls) + 1;
        }
    }

    /// The place of the next call that posts.
    fn place(&self, calls: &[Call]) -> usize
        requires left { lists_from calls.now self.now.behind ≢ [] }
        ensures { (items : List Item) × IsNext calls.now self.now.behind result items }
    {
        let mut place = self.behind;
        while !posts(&calls[place]) {
            place += 1;
        }
        place
    }
}

/// Whether a call posts.
fn posts(call: &Call) -> bool
    ensures { MatchBool result ((items : List Item) × (list_of call.now ≡ items ∷ [])) (list_of call.now ≡ []) }
{
    match call {
        Call::Post { .. } => true,
        Call::Recv { .. } => true,
        Call::Poll { .. } | Call::Drain { .. } => false,
    }
}

/// The first `count` items of a call that posts, or all where it has fewer.
fn items_of(alloc: Global, call: &Call, count: usize) -> Result<Vec<Item>, NoMemory>
    ensures { (items : List Item) → list_of call.now ≡ items ∷ [] → IfOk result (λ v. v.items ≡ take count items) }
{
    match call {
        Call::Post { requests, .. } => {
            let most = count.min(requests.len());
            requests_of(alloc, &requests.as_slice()[..most])
        }
        Call::Recv { receives, .. } => {
            let most = count.min(receives.len());
            receives_of(alloc, &receives.as_slice()[..most])
        }
        Call::Poll { .. } | Call::Drain { .. } => Ok(Vec::new(alloc)),
    }
}

/// These requests, as items.
fn requests_of(alloc: Global, requests: &[Request]) -> Result<Vec<Item>, NoMemory>
    ensures { IfOk result (λ v. v.items ≡ map TheRequest requests.now) }
{
    let mut items = Vec::new(alloc);
    for request in requests {
        let copy = copy_of_request(request).map_err(|_| NoMemory)?;
        items.push(Item::Request(copy)).map_err(|_| NoMemory)?;
    }
    Ok(items)
}

fn copy_of_request(request: &Request) -> Result<Request, AllocError>
    ensures { IfOk result (λ r. r ≡ request.now) }
{
    request.clone()
}

/// These receives, as items.
fn receives_of(alloc: Global, receives: &[Receive]) -> Result<Vec<Item>, NoMemory>
    ensures { IfOk result (λ v. v.items ≡ map TheReceive receives.now) }
{
    let mut items = Vec::new(alloc);
    for receive in receives {
        let copy = copy_of_receive(receive).map_err(|_| NoMemory)?;
        items.push(Item::Receive(copy)).map_err(|_| NoMemory)?;
    }
    Ok(items)
}

fn copy_of_receive(receive: &Receive) -> Result<Receive, AllocError>
    ensures { IfOk result (λ r. r ≡ receive.now) }
{
    receive.clone()
}
