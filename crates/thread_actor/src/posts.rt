//! Calls that post.
ghost use Rattle.std.specs.Prelude.{◌≡◌, map, None};
ghost use Rattle.bus_core.specs.Port.{Appends};
ghost use Rattle.bus_core.specs.declared.operation.BusEntry.{BusEntry};
ghost use Rattle.counted_ring.specs.Turn.{CanServe};
ghost use Rattle.verbs_types.specs.declared.request.Item.TheVariants.{Request as TheRequest, Receive as TheReceive};
ghost use Rattle.thread_actor.specs.Posts.{MayGoOn, GoesOn, Ready, CanServeAt, Posts, CanBegin, begun};
ghost use Rattle.thread_actor.specs.Posts as words;

use bus_core::{BusPort, Note, Step};
use provider_post::{PostAnswer, PostSide, RecvSide};
use verbs_types::{Receive, Request};

/// What an operation of a post came to.
#[derive(Clone, Copy)]
pub(crate) struct Posted {
    /// The call is over.
    pub is_over: bool,
    /// The operation's note.
    pub noted: Option<Note>,
}

/// Makes the next operation of a call to post these requests, which may be about to begin.
pub(crate) fn post<P: BusPort>(
    sides: &mut [Option<PostSide>],
    place: usize,
    requests: &[Request],
    port: &mut P,
) -> Posted
    requires ready { Ready sides.old place (map TheRequest requests.now) }
    requires port { CanServeAt sides.old place (P.port port.old) }
    ensures { (e : BusEntry) × Appends (P.port port.old) (P.port port.new) e × Posts sides.old sides.new place (map TheRequest requests.now) e result }
{
    match &mut sides[place] {
        Some(side) => post_on(side, requests, port),
        None => unreachable!(),
    }
}

fn post_on<P: BusPort>(side: &mut PostSide, requests: &[Request], port: &mut P) -> Posted
    requires may { MayGoOn side.old (map TheRequest requests.now) }
    requires port { CanServe side.old.poster.place (P.port port.old) }
    ensures { (e : BusEntry) × Appends (P.port port.old) (P.port port.new) e × GoesOn side.old side.new (map TheRequest requests.now) e result }
{
    begin_post(side, requests.len());
    let answer = side.turn(port, requests);
    Posted {
        is_over: is_over(answer),
        noted: side.note(),
    }
}

/// Begins a call of `count` requests, where none is under way.
fn begin_post(side: &mut PostSide, count: usize)
    requires { side.old.call ≡ None → CanBegin side.old count }
    ensures { side.new ≡ begun side.old count }
{
    if side.is_idle() {
        side.begin(count as u32);
    }
}

/// Makes the next operation of a call to post these receives, which may be about to begin.
pub(crate) fn receive<P: BusPort>(
    sides: &mut [Option<RecvSide>],
    place: usize,
    receives: &[Receive],
    port: &mut P,
) -> Posted
    requires ready { Ready sides.old place (map TheReceive receives.now) }
    requires port { CanServeAt sides.old place (P.port port.old) }
    ensures { (e : BusEntry) × Appends (P.port port.old) (P.port port.new) e × Posts sides.old sides.new place (map TheReceive receives.now) e result }
{
    match &mut sides[place] {
        Some(side) => receive_on(side, receives, port),
        None => unreachable!(),
    }
}

fn receive_on<P: BusPort>(side: &mut RecvSide, receives: &[Receive], port: &mut P) -> Posted
    requires may { MayGoOn side.old (map TheReceive receives.now) }
    requires port { CanServe side.old.poster.place (P.port port.old) }
    ensures { (e : BusEntry) × Appends (P.port port.old) (P.port port.new) e × GoesOn side.old side.new (map TheReceive receives.now) e result }
{
    begin_receive(side, receives.len());
    let answer = side.turn(port, receives);
    Posted {
        is_over: is_over(answer),
        noted: side.note(),
    }
}

/// Begins a call of `count` receives, where none is under way.
fn begin_receive(side: &mut RecvSide, count: usize)
    requires { side.old.call ≡ None → CanBegin side.old count }
    ensures { side.new ≡ begun side.old count }
{
    if side.is_idle() {
        side.begin(count as u32);
    }
}

/// Whether the operation was the call's last one.
fn is_over(answer: Step<(), PostAnswer>) -> bool
    ensures { result ≡ words.is_over answer }
{
    matches!(answer, Step::Done(_))
}
