//! The commands, over a source and two sinks.
ghost use Rattle.std.specs.Prelude.{◌≡◌, ◌≢◌, IfOk, IfErr};
ghost use Rattle.mlx5_cli.specs.Status.{line_of};
ghost use Rattle.mlx5_cli.specs.Making.{MakesRun, Makes, Stops, StopsRun};
ghost use Rattle.mlx5_cli.specs.Run.{call, Says, status_of, Answers, Tells};

use crate::command::{Command, command_of};
use crate::layouts::layout_lines;
use crate::reading::{ReadError, TEXT_LIMIT, read_all};
use crate::run_text::run_of;
use crate::status::Status;
use byte_streams::{Sink, Source, write_all};
use scenario_text::{LimitName, ScenarioFault};
use std::alloc::Global;

impl From<ReadError> for Status {
    ghost use Rattle.std.specs.Prelude.{◌≡◌};
    ghost use Rattle.mlx5_cli.specs.Status.{status_of_unread};

    ghost from_gives = { λ e s. s ≡ status_of_unread e };

    fn from(error: ReadError) -> Status {
        match error {
            ReadError::Failed => Status::ReadFault,
            ReadError::TooLong => Status::Limit {
                name: LimitName::Text,
                value: TEXT_LIMIT as u64 + 1,
            },
            ReadError::NoMemory => Status::NoMemory,
        }
    }
}

impl From<ScenarioFault> for Status {
    ghost use Rattle.std.specs.Prelude.{◌≡◌};
    ghost use Rattle.mlx5_cli.specs.Status.{status_of_fault};

    ghost from_gives = { λ e s. s ≡ status_of_fault e };

    fn from(fault: ScenarioFault) -> Status {
        match fault {
            ScenarioFault::Malformed { line, why } => Status::Malformed { line, rule: why },
            ScenarioFault::Limit { name, value } => Status::Limit { name, value },
            ScenarioFault::NoMemory => Status::NoMemory,
        }
    }
}

/// Does what the words after the program's name ask for, and gives the status.
///
/// `run` reads a scenario from `source` and writes the history and the trace of its run to `out`; `layout NAME`
/// reads nothing and writes the rows of a layout. `out` gets no byte before the whole text is made.
/// The line of a status other than `Done` goes to `err`; a failed write there changes no status.
#[tactic(auto, using(crate::proofs::Exactly::answers))]
pub fn run_plain<S: Source, K: Sink, E: Sink>(
    alloc: Global,
    words: &[String],
    source: &mut S,
    out: &mut K,
    err: &mut E,
) -> Status
    ensures answers { Answers (call words.now (S.state source.old) (S.state source.new)
        (K.state out.old) (K.state out.new)) result }
    ensures quiet { result ≡ Status.Done → E.state err.new ≡ E.state err.old }
    ensures told { Tells (E.state err.old) (E.state err.new) (line_of result) }
{
    match printed(alloc, words, source, out) {
        Ok(()) => Status::Done,
        Err(status) => {
            say(err, status);
            status
        }
    }
}

/// Writes the line of a status to `err`. A failed write ends the line there and is not told.
pub fn say<E: Sink>(err: &mut E, status: Status)
    ensures { Tells (E.state err.old) (E.state err.new) (line_of status) }
{
    let _ = write_all(err, status.line().as_str().as_bytes());
}

/// Makes the command's whole output and writes it, or stops with the status that ends the command.
fn printed<S: Source, K: Sink>(
    alloc: Global,
    words: &[String],
    source: &mut S,
    out: &mut K,
) -> Result<(), Status>
    ensures says { Says (call words.now (S.state source.old) (S.state source.new)
        (K.state out.old) (K.state out.new)) (status_of result) }
    ensures stops { IfErr result (λ status. status ≢ Status.Done) }
{
    let Some(command) = command_of(words) else {
        return Err(Status::Usage);
    };
    let output = output_of(alloc, command, source)?;
    write_all(out, output.as_slice()).map_err(|_| Status::WriteFault)
}

/// The whole output of a command.
fn output_of<S: Source>(alloc: Global, command: Command, source: &mut S) -> Result<Vec<u8>, Status>
    ensures makes { IfOk result (λ output. Makes command (S.state source.old) (S.state source.new) output.items) }
    ensures stops { IfErr result (Stops command (S.state source.old) (S.state source.new)) }
{
    match command {
        Command::Run => run_read(alloc, source),
        Command::Layout(layout) => layout_lines(alloc, layout).map_err(|_| Status::NoMemory),
    }
}

/// The text of a run of the scenario that the source gives.
#[tactic(auto, using(crate::proofs::Refusing::stops_unread, crate::proofs::Refusing::stops_refused))]
fn run_read<S: Source>(alloc: Global, source: &mut S) -> Result<Vec<u8>, Status>
    ensures makes { IfOk result (λ output. MakesRun (S.state source.old) (S.state source.new) output.items) }
    ensures stops { IfErr result (StopsRun (S.state source.old) (S.state source.new)) }
{
    let text = read_all(alloc, source)?;
    let output = run_of(alloc, text.as_slice())?;
    Ok(output)
}
