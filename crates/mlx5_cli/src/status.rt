//! How a command ends: the exit status of the process, and what it says on standard error.
ghost use Rattle.std.specs.Prelude.{◌≡◌};

use crate::line::{Line, fixed_line, limit_line, malformed_line};
use scenario_text::{LimitName, TextRule};

/// How a command ended. The order is that of the numbers.
#[derive(Clone, Copy, Debug, PartialEq, Eq)]
pub enum Status {
    /// The command did what it was asked.
    Done,
    /// The history that was to be checked is not legal.
    Illegal,
    /// The words are no form of a command.
    Usage,
    /// The input is outside its grammar: the first line that breaks a rule, counted from 1 (0 where it
    /// is not found out), and that rule.
    Malformed { line: u32, rule: TextRule },
    /// A quantity of the input passes its limit: the quantity, and how much of it there is, as far as
    /// it was read.
    Limit { name: LimitName, value: u64 },
    /// A read failed.
    ReadFault,
    /// A write failed.
    WriteFault,
    /// A thread could not be started.
    SpawnFault,
    /// There was no memory left.
    NoMemory,
}

impl Status {
    ghost use Rattle.mlx5_cli.specs.Status.{number_of, line_of};

    /// The exit status of the process.
    pub fn number(self) -> u8
        ensures { result ≡ number_of self }
    {
        match self {
            Status::Done => 0,
            Status::Illegal => 1,
            Status::Usage => 2,
            Status::Malformed { .. } => 3,
            Status::Limit { .. } => 4,
            Status::ReadFault => 5,
            Status::WriteFault => 6,
            Status::SpawnFault => 7,
            Status::NoMemory => 8,
        }
    }

    /// The line for standard error with its line end, or nothing where there is no line to say. It
    /// does not allocate.
    ///
    /// `Illegal` has numbers in its line; no command answers it yet.
    pub fn line(self) -> Line
        ensures { result.bytes ≡ line_of self }
    {
        match self {
            Status::Done | Status::Illegal => Line::new(),
            Status::Usage => fixed_line("mlx5: usage\n"),
            Status::Malformed { line, rule } => malformed_line(line, rule),
            Status::Limit { name, value } => limit_line(name, value),
            Status::ReadFault => fixed_line("mlx5: read fault\n"),
            Status::WriteFault => fixed_line("mlx5: write fault\n"),
            Status::SpawnFault => fixed_line("mlx5: start fault\n"),
            Status::NoMemory => fixed_line("mlx5: no memory\n"),
        }
    }
}
