//! Arms, and the words that carry them.
ghost use Rattle.std.specs.Prelude.{◌≡◌};
ghost use Rattle.cq_arms.specs.Words as words;

use bus_core::Note;
use verbs_types::ArmKind;

/// What an arm register holds where nothing was armed.
pub const NO_ARM: u64 = u64::MAX;

/// An arm of a completion queue: it asks for an event once a completion of this kind stands at this
/// index or behind it. `number` counts the events that were taken when the queue was armed.
#[derive(Clone, Copy, Debug, PartialEq, Eq)]
pub struct Arm {
    pub kind: ArmKind,
    pub index: u64,
    pub number: u64,
}

/// An arm as its words show it: with the whole index, and its number modulo 4.
#[derive(Clone, Copy, Debug, PartialEq, Eq)]
pub struct Armed {
    pub kind: ArmKind,
    pub index: u64,
    pub sn: u8,
}

impl Arm {
    /// What its words show.
    pub fn shown(&self) -> Armed
        ensures { result ≡ words.shown_arm self.now }
    {
        Armed {
            kind: self.kind,
            index: self.index,
            sn: (self.number & 3) as u8,
        }
    }

    /// The word of the doorbell record: the number in bits 29 and 28, the command in bit 24, which
    /// is set for a solicited arm, and the index in the low 24 bits, as the Programmer's Reference
    /// Manual and the rdma-core mlx5 provider have it.
    pub fn word(&self) -> u64
        ensures { result ≡ words.arm_word self.now }
    {
        ((self.number & 3) << 28) + command(self.kind) + (self.index & 0xff_ffff)
    }

    /// The word of the register of the queue with this number: the arm word above the number.
    pub fn register(&self, number: u32) -> u64
        ensures { result ≡ words.register_word number self.now }
    {
        (self.word() << 32) + number as u64
    }
}

/// The command bits of an arm word.
fn command(kind: ArmKind) -> u64
    ensures { result ≡ words.command kind }
{
    match kind {
        ArmKind::Any => 0,
        ArmKind::Solicited => 1 << 24,
    }
}

/// The number of a kind in a note.
fn kind_number(kind: ArmKind) -> u64
    ensures { result ≡ words.kind_number kind }
{
    match kind {
        ArmKind::Any => 0,
        ArmKind::Solicited => 1,
    }
}

/// A note with these three numbers.
pub(crate) fn note_of(a: u64, b: u64, c: u64) -> Note
    ensures { result ≡ words.number_note a b c }
{
    Note {
        kind: 0,
        object: 0,
        a,
        b,
        c,
        d: 0,
    }
}

/// The kind of the arm that a register word shows.
fn kind_shown(word: u64) -> ArmKind
    ensures { result ≡ words.kind_shown word }
{
    if word >> 56 & 1 == 1 {
        ArmKind::Solicited
    } else {
        ArmKind::Any
    }
}

impl Armed {
    /// What a register word shows, to a side at this index. The arm's index is the one at most
    /// 2^24 - 1 below that has the word's 24 bits.
    pub fn of_register(index: u64, word: u64) -> Armed
        ensures { result ≡ words.shown index word }
    {
        let behind = index.wrapping_sub(word >> 32) & 0xff_ffff;
        Armed {
            kind: kind_shown(word),
            index: index.wrapping_sub(behind),
            sn: (word >> 60 & 3) as u8,
        }
    }

    /// A note of it: the index in field `a`, the number modulo 4 in `b`, and in `c` 1 where it is
    /// solicited.
    pub(crate) fn note(&self) -> Note
        ensures { result ≡ words.arm_note self.now }
    {
        note_of(self.index, self.sn as u64, kind_number(self.kind))
    }

    /// Whether it is passed in a queue whose next completion has the index `next`, and whose last
    /// solicited completion has the index before `solicited`.
    pub fn is_passed(&self, next: u64, solicited: u64) -> bool
        ensures { result ≡ words.is_passed self.now.kind self.now.index next solicited }
    {
        match self.kind {
            ArmKind::Any => self.index < next,
            ArmKind::Solicited => self.index < solicited,
        }
    }
}

/// The arm that is stored for a call of this kind, at this index and number, where `last` was stored
/// before: an arm for any completion that is asked for again as solicited stays what it is.
pub(crate) fn next_arm(last: Option<Arm>, kind: ArmKind, index: u64, number: u64) -> Arm
    ensures { result ≡ words.next_arm last kind index number }
{
    let kind = if is_any_at(last, index, number) {
        ArmKind::Any
    } else {
        kind
    };
    Arm {
        kind,
        index,
        number,
    }
}

/// Whether this is an arm for any completion, at this index and number.
fn is_any_at(arm: Option<Arm>, index: u64, number: u64) -> bool
    ensures { result ≡ words.is_any_at arm index number }
{
    match arm {
        Some(arm) => matches!(arm.kind, ArmKind::Any) && arm.index == index && arm.number == number,
        None => false,
    }
}
