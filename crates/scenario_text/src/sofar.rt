//! What the lines read so far say.

use crate::fault::LimitName;
use crate::keyword::Section;
use crate::names::Names;
use crate::scenario::Plan;
use verbs_types::{
    Call, Connect, CqLine, EqLine, Name, Object, PdLine, QpLine, Receive, Request, Sequence,
};

/// What the next line stands in.
#[derive(Clone, Copy, Debug, PartialEq, Eq)]
pub enum Place {
    Outside,
    InThread,
    /// After a `post` on this queue pair, whose requests follow.
    InPost(u32),
    /// After a `recv` on this queue pair, whose receives follow.
    InRecv(u32),
}

/// How a queue pair is used.
#[derive(Clone, Copy, Debug, PartialEq, Eq)]
pub struct PairUse {
    /// A `connect` line names it.
    pub connected: bool,
    /// The number of the thread that posts on its send queue.
    pub poster: Option<u32>,
    /// The number of the thread that posts on its receive queue.
    pub receiver: Option<u32>,
}

/// How a completion queue is used.
#[derive(Clone, Copy, Debug, PartialEq, Eq)]
pub struct QueueUse {
    /// The number of the thread that polls it.
    pub poller: Option<u32>,
    /// How many more requests and receives may complete into it.
    pub room: u64,
}

/// A limit that a text passes, and the value that passes it.
#[derive(Clone, Copy, Debug, PartialEq, Eq)]
pub struct Passed {
    pub name: LimitName,
    pub value: u64,
}

/// What the lines read so far say.
#[derive(Drop)]
pub struct Sofar {
    /// How many lines were read.
    pub count: u32,
    /// The first section of which a line may follow.
    pub section: Section,
    pub names: Names,
    pub eqs: Vec<EqLine>,
    pub pds: Vec<PdLine>,
    pub cqs: Vec<CqLine>,
    pub qps: Vec<QpLine>,
    pub order: Vec<Object>,
    pub connects: Vec<Connect>,
    pub threads: Vec<Name>,
    pub pairs: Vec<PairUse>,
    pub queues: Vec<QueueUse>,
    /// The calls of each thread whose end was read.
    pub programs: Vec<Sequence<Call>>,
    pub place: Place,
    /// The calls of the thread whose end was not read.
    pub calls: Vec<Call>,
    /// The requests of the `post` in which the next line stands.
    pub requests: Vec<Request>,
    /// The receives of the `recv` in which the next line stands.
    pub receives: Vec<Receive>,
    pub plan: Plan,
    /// The first limit that was passed.
    pub passed: Option<Passed>,
}
