//! The first words of lines, and where each may stand.
ghost use Rattle.std.specs.Prelude.{◌≡◌, bytes_eq};
ghost use Rattle.scenario_text.specs.Keywords as keywords;

use crate::slot::{Kind, Slot};

/// The first word of a line that is built.
#[derive(Clone, Copy, Debug, PartialEq, Eq)]
pub enum Keyword {
    /// `eq NAME LOG`
    Eq,
    /// `pd NAME`
    Pd,
    /// `cq NAME LOG CEIL EQ START`
    Cq,
    /// `qp NAME PD SENDCQ RECVCQ SENDLOG rq:LOG SEGMENTS START`
    Qp,
    /// `connect QP QP`
    Connect,
    /// `thread NAME`
    Thread,
    /// `end`
    End,
    /// `post QP`
    Post,
    /// `+ ID OP FLAGS`, after `post`
    Item,
    /// `recv QP`
    Recv,
    /// `+ ID SGE SGE`, after `recv`
    Receive,
    /// `poll CQ MAX`
    Poll,
    /// `drain CQ COUNT`
    Drain,
    /// `schedule ITEM ITEM`
    Schedule,
    /// `rounds N`
    Rounds,
}

/// A part of a scenario, in the order of the parts.
#[derive(Clone, Copy, Debug, PartialEq, Eq)]
pub enum Section {
    Objects,
    Connects,
    Threads,
    Plan,
    /// After the last line that a scenario may have.
    Over,
}

impl Keyword {
    /// The keyword that a field is outside the lists of receives.
    pub fn of(field: &[u8]) -> Option<Keyword>
        ensures { result ≡ keywords.keyword_of field.now }
    {
        if is(field, "eq") {
            Some(Keyword::Eq)
        } else if is(field, "pd") {
            Some(Keyword::Pd)
        } else if is(field, "cq") {
            Some(Keyword::Cq)
        } else if is(field, "qp") {
            Some(Keyword::Qp)
        } else if is(field, "connect") {
            Some(Keyword::Connect)
        } else if is(field, "thread") {
            Some(Keyword::Thread)
        } else if is(field, "end") {
            Some(Keyword::End)
        } else if is(field, "post") {
            Some(Keyword::Post)
        } else if is(field, "+") {
            Some(Keyword::Item)
        } else if is(field, "recv") {
            Some(Keyword::Recv)
        } else if is(field, "poll") {
            Some(Keyword::Poll)
        } else if is(field, "drain") {
            Some(Keyword::Drain)
        } else if is(field, "schedule") {
            Some(Keyword::Schedule)
        } else if is(field, "rounds") {
            Some(Keyword::Rounds)
        } else {
            None
        }
    }

    /// What stands after the word, place by place.
    pub fn slots(self) -> &'static [Slot]
        ensures { result.now ≡ keywords.slots_of self }
    {
        match self {
            Keyword::Eq => &[Slot::NewName, Slot::Number],
            Keyword::Pd => &[Slot::NewName],
            Keyword::Cq => &[
                Slot::NewName,
                Slot::Number,
                Slot::Number,
                Slot::Name(Kind::Eq),
                Slot::Number,
            ],
            Keyword::Qp => &[
                Slot::NewName,
                Slot::Name(Kind::Pd),
                Slot::Name(Kind::Cq),
                Slot::Name(Kind::Cq),
                Slot::Number,
                Slot::RecvLog,
                Slot::Number,
                Slot::Number,
            ],
            Keyword::Connect => &[Slot::Pair, Slot::Pair],
            Keyword::Thread => &[Slot::NewName],
            Keyword::End => &[],
            Keyword::Post => &[Slot::Poster],
            Keyword::Item => &[Slot::Number, Slot::Operation, Slot::Flags],
            Keyword::Recv => &[Slot::Receiver],
            Keyword::Receive => &[Slot::Number],
            Keyword::Poll | Keyword::Drain => &[Slot::Poller, Slot::Number],
            Keyword::Schedule => &[Slot::Turns],
            Keyword::Rounds => &[Slot::Number],
        }
    }

    /// What stands in each place after these, where more may follow.
    pub fn more(self) -> Option<Slot>
        ensures { result ≡ keywords.more_of self }
    {
        match self {
            Keyword::Receive => Some(Slot::Segment),
            Keyword::Schedule => Some(Slot::Turns),
            _ => None,
        }
    }

    /// The section that a line outside a thread is of.
    pub fn section(self) -> Option<Section>
        ensures { result ≡ keywords.section_of self }
    {
        match self {
            Keyword::Eq | Keyword::Pd | Keyword::Cq | Keyword::Qp => Some(Section::Objects),
            Keyword::Connect => Some(Section::Connects),
            Keyword::Thread => Some(Section::Threads),
            Keyword::Schedule | Keyword::Rounds => Some(Section::Plan),
            Keyword::End
            | Keyword::Post
            | Keyword::Item
            | Keyword::Recv
            | Keyword::Receive
            | Keyword::Poll
            | Keyword::Drain => None,
        }
    }

    /// Whether the line is a call of a thread or its end.
    pub fn is_of_thread(self) -> bool
        ensures { result ≡ keywords.is_of_thread self }
    {
        match self {
            Keyword::End | Keyword::Post | Keyword::Recv | Keyword::Poll | Keyword::Drain => true,
            _ => false,
        }
    }
}

impl Section {
    /// Whether a line of this section may stand after a line before which `earliest` was the first that
    /// could follow.
    pub fn is_from(self, earliest: Section) -> bool
        ensures { result ≡ keywords.is_from earliest self }
    {
        earliest.place() <= self.place()
    }

    fn place(self) -> u8
        ensures { result ≡ keywords.place_of self }
    {
        self as u8
    }

    /// The first section of which a line may follow a line of this one.
    pub fn next(self) -> Section
        ensures { result ≡ keywords.next_of self }
    {
        match self {
            Section::Plan => Section::Over,
            _ => self,
        }
    }
}

/// Whether a field is the first word of a line that is not built yet.
pub fn is_later_word(field: &[u8]) -> bool
    ensures { result ≡ keywords.is_later_word field.now }
{
    is(field, "arena")
        || is(field, "mr")
        || is(field, "srq")
        || is(field, "srqpost")
        || is(field, "arm")
        || is(field, "event")
        || is(field, "await")
        || is(field, "write")
        || is(field, "read")
        || is(field, "reg")
        || is(field, "dereg")
        || is(field, "resize")
        || is(field, "error")
        || is(field, "destroy")
        || is(field, "close")
}

/// Whether a field is an operation of a request that is not built yet.
pub fn is_later_operation(field: &[u8]) -> bool
    ensures { result ≡ keywords.is_later_operation field.now }
{
    is(field, "send")
        || is(field, "sendimm")
        || is(field, "write")
        || is(field, "writeimm")
        || is(field, "read")
        || is(field, "cas")
        || is(field, "faa")
}

/// Whether a field is this word.
fn is(field: &[u8], word: &str) -> bool
    ensures { result ≡ bytes_eq field.now word.now }
{
    field == word.as_bytes()
}
