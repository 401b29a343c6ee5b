//! Why a text is no scenario.
ghost use Rattle.std.specs.Prelude.{◌≡◌};
ghost use Rattle.scenario_text.specs.Faults.{rule_text, limit_text};

use std::alloc::AllocError;
use std::fmt;
use thiserror::Error;

/// What a line breaks.
#[derive(Clone, Copy, Debug, PartialEq, Eq)]
pub enum TextRule {
    /// A byte that no text has.
    Byte,
    /// The form of the line, or the place where it stands.
    Form,
    /// Digits that are no number below 2^64, or begin with a zero too many.
    Number,
    /// A name that was given before, or a queue pair that was connected before.
    Double,
    /// A name that no earlier line gives, or one of another kind.
    Name,
    /// A side of a queue that two threads would use.
    Side,
    /// The text ends too early.
    Missing,
    /// A form that is not built yet.
    NotBuilt,
}

impl TextRule {
    /// The rule in words.
    pub fn as_str(self) -> &'static str
        ensures { result.now ≡ rule_text self }
    {
        match self {
            TextRule::Byte => "byte",
            TextRule::Form => "form",
            TextRule::Number => "number",
            TextRule::Double => "double",
            TextRule::Name => "name",
            TextRule::Side => "side",
            TextRule::Missing => "missing",
            TextRule::NotBuilt => "not built",
        }
    }
}

impl fmt::Display for TextRule {
    ghost use Rattle.std.specs.Prelude.{Some};
    ghost use Rattle.scenario_text.specs.Faults.{rule_text};

    ghost output = { λ rule. Some (rule_text rule) };

    fn fmt<W: fmt::Write>(&self, f: &mut fmt::Formatter<W>) -> fmt::Result {
        f.write_str(self.as_str())
    }
}

/// A quantity of a text that has a bound.
#[derive(Clone, Copy, Debug, PartialEq, Eq)]
pub enum LimitName {
    /// Bytes of the text.
    Text,
    /// Threads.
    Threads,
    /// Calls of one thread.
    Calls,
    /// Requests or receives of one post.
    List,
    /// Objects of one kind.
    Objects,
    /// Bytes of data memory.
    Arena,
    /// The base-2 logarithm of a size.
    Log,
    /// Scatter/gather entries, or inline bytes.
    Sges,
    /// A start value.
    Start,
    /// Bytes of one segment or of one request.
    Length,
    /// An immediate.
    Immediate,
    /// The most completions of a poll.
    Poll,
    /// The completions of a drain.
    Drain,
    /// Bytes of one access to data memory.
    Bytes,
    /// Events that an event queue may have to hold.
    Events,
    /// Turns of the plan.
    Turns,
    /// Words of the address map.
    Words,
    /// Notes of a run.
    Notes,
    /// Turns of the closing.
    Closing,
}

impl LimitName {
    /// The quantity in words.
    pub fn as_str(self) -> &'static str
        ensures { result.now ≡ limit_text self }
    {
        match self {
            LimitName::Text => "text",
            LimitName::Threads => "threads",
            LimitName::Calls => "calls",
            LimitName::List => "list",
            LimitName::Objects => "objects",
            LimitName::Arena => "arena",
            LimitName::Log => "log",
            LimitName::Sges => "sges",
            LimitName::Start => "start",
            LimitName::Length => "length",
            LimitName::Immediate => "immediate",
            LimitName::Poll => "poll",
            LimitName::Drain => "drain",
            LimitName::Bytes => "bytes",
            LimitName::Events => "events",
            LimitName::Turns => "turns",
            LimitName::Words => "words",
            LimitName::Notes => "notes",
            LimitName::Closing => "closing",
        }
    }
}

impl fmt::Display for LimitName {
    ghost use Rattle.std.specs.Prelude.{Some};
    ghost use Rattle.scenario_text.specs.Faults.{limit_text};

    ghost output = { λ name. Some (limit_text name) };

    fn fmt<W: fmt::Write>(&self, f: &mut fmt::Formatter<W>) -> fmt::Result {
        f.write_str(self.as_str())
    }
}

/// Why a text gave no scenario.
#[derive(Clone, Copy, Debug, PartialEq, Eq, Error)]
pub enum ScenarioFault {
    /// The text is of no scenario: the first line that breaks a rule, counted from 1, and that rule.
    #[error("line {line}: {why}")]
    Malformed { line: u32, why: TextRule },
    /// The text is of the grammar, and a quantity of it passes its bound: the first one, with its value.
    #[error("limit {name} {value}")]
    Limit { name: LimitName, value: u64 },
    #[error("out of memory")]
    NoMemory,
}

impl From<AllocError> for ScenarioFault {
    ghost use Rattle.scenario_text.specs.declared.fault.ScenarioFault.TheVariants.{NoMemory};
    ghost use Rattle.std.specs.Prelude.{◌≡◌};

    ghost from_gives = { λ error fault. fault ≡ NoMemory };

    fn from(_error: AllocError) -> Self {
        ScenarioFault::NoMemory
    }
}
