//! What an entry says of a command.
ghost use Rattle.std.specs.Prelude.{◌≡◌, ◌++◌, OnOk};
ghost use Rattle.verbs_types.specs.declared.entry.What.TheVariants as what;
ghost use Rattle.transcript_text.specs.Commands as texts;
ghost use Rattle.transcript_text.specs.Numbers.{CommandNames, IsActor};
ghost use Rattle.transcript_text.specs.Fields.{spaced, row_text};

use crate::command::put_command;
use crate::names::actor_name;
use crate::writer::TextWriter;
use verbs_types::{Answer, HistoryCommand, Lines, NoMemory};

pub(crate) fn put_submit(
    out: &mut TextWriter,
    lines: &Lines,
    command: &HistoryCommand,
) -> Result<(), NoMemory>
    requires { CommandNames lines.now command.now }
    ensures { OnOk result (out.new ≡ out.old ++ row_text lines.now (what.Submit command.now)) }
{
    out.put_field(b"submit")?;
    put_command(out, lines, command)
}

pub(crate) fn put_reply(
    out: &mut TextWriter,
    lines: &Lines,
    command: &HistoryCommand,
    answer: Answer,
) -> Result<(), NoMemory>
    requires { CommandNames lines.now command.now }
    ensures { OnOk result (out.new ≡ out.old ++ row_text lines.now (what.Reply command.now answer)) }
{
    out.put_field(b"reply")?;
    put_answered(out, lines, command, answer)
}

pub(crate) fn put_execute(
    out: &mut TextWriter,
    lines: &Lines,
    actor: u8,
    command: &HistoryCommand,
    answer: Answer,
) -> Result<(), NoMemory>
    requires actor { IsActor lines.now actor }
    requires command { CommandNames lines.now command.now }
    ensures { OnOk result (out.new
        ≡ out.old ++ row_text lines.now (what.Execute actor command.now answer)) }
{
    out.put_field(b"exec")?;
    out.put_field(actor_name(lines, actor))?;
    put_answered(out, lines, command, answer)
}

/// Adds a command and its answer.
fn put_answered(
    out: &mut TextWriter,
    lines: &Lines,
    command: &HistoryCommand,
    answer: Answer,
) -> Result<(), NoMemory>
    requires { CommandNames lines.now command.now }
    ensures { OnOk result (out.new ≡ out.old
        ++ spaced (texts.command_fields lines.now command.now ++ texts.answer_fields answer)) }
{
    put_command(out, lines, command)?;
    put_answer(out, answer)
}

fn put_answer(out: &mut TextWriter, answer: Answer) -> Result<(), NoMemory>
    ensures { OnOk result (out.new ≡ out.old ++ spaced (texts.answer_fields answer)) }
{
    match answer {
        Answer::Status(status) => out.put_number_field(u64::from(status)),
        Answer::Delivery(status) => {
            out.put_field(b"delivery")?;
            out.put_number_field(u64::from(status))
        }
    }
}
