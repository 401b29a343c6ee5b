//! The texts of commands.
ghost use Rattle.std.specs.Prelude.{◌≡◌, [], ◌∷◌, ◌++◌, codes, decimal, OnOk};
ghost use Rattle.scenario_text.specs.Heads as heads;
ghost use Rattle.transcript_text.specs.Commands as texts;
ghost use Rattle.transcript_text.specs.Fields.{spaced};
ghost use Rattle.transcript_text.specs.Numbers.{CommandNames, IsCq, IsObject, IsQp};

use crate::key::{put_destroy_key, put_make_key};
use crate::names::{cq_name, object_name, qp_name};
use crate::writer::TextWriter;
use verbs_types::{HistoryCommand, Lines, NoMemory, Object, PageUse};

/// Adds the fields of a command.
pub(crate) fn put_command(
    out: &mut TextWriter,
    lines: &Lines,
    command: &HistoryCommand,
) -> Result<(), NoMemory>
    requires { CommandNames lines.now command.now }
    ensures { OnOk result (out.new ≡ out.old ++ spaced (texts.command_fields lines.now command.now)) }
{
    match command {
        HistoryCommand::Enable => out.put_field(b"enable"),
        HistoryCommand::Disable => out.put_field(b"disable"),
        HistoryCommand::QueryPages(pages) => put_query_pages(out, *pages),
        HistoryCommand::GivePages { count } => put_counted(out, b"give", *count),
        HistoryCommand::ReturnPages { count } => put_counted(out, b"return", *count),
        HistoryCommand::Init => out.put_field(b"init"),
        HistoryCommand::Teardown => out.put_field(b"teardown"),
        HistoryCommand::Make { object } => put_of_object(out, lines, b"make", *object),
        HistoryCommand::AllocUar { page } => put_counted(out, b"uar", *page),
        HistoryCommand::MakeKey { region, key } => put_make_key(out, lines, region, *key),
        HistoryCommand::DestroyKey { key } => put_destroy_key(out, *key),
        HistoryCommand::RstToInit { qp } => put_of_qp(out, lines, b"rst2init", *qp),
        HistoryCommand::InitToRtr { qp, peer } => put_connecting(out, lines, *qp, *peer),
        HistoryCommand::RtrToRts { qp } => put_of_qp(out, lines, b"rtr2rts", *qp),
        HistoryCommand::ToErr { qp } => put_of_qp(out, lines, b"err", *qp),
        HistoryCommand::Modify { cq, log } => put_modify(out, lines, *cq, *log),
        HistoryCommand::Destroy { object } => put_of_object(out, lines, b"drop", *object),
        HistoryCommand::DeallocUar { page } => put_counted(out, b"dropuar", *page),
    }
}

fn put_query_pages(out: &mut TextWriter, pages: PageUse) -> Result<(), NoMemory>
    ensures { OnOk result (out.new ≡ out.old ++ spaced (codes "pages" ∷ texts.pages_name pages ∷ [])) }
{
    out.put_field(b"pages")?;
    out.put_field(pages_name(pages))
}

fn pages_name(pages: PageUse) -> &'static [u8]
    ensures { result.now ≡ texts.pages_name pages }
{
    match pages {
        PageUse::Boot => b"boot",
        PageUse::Init => b"init",
    }
}

/// Adds a word and a number.
fn put_counted(out: &mut TextWriter, word: &[u8], count: u64) -> Result<(), NoMemory>
    ensures { OnOk result (out.new ≡ out.old ++ spaced (word.now ∷ decimal count ∷ [])) }
{
    out.put_field(word)?;
    out.put_number_field(count)
}

/// Adds a word and the name of an object.
fn put_of_object(
    out: &mut TextWriter,
    lines: &Lines,
    word: &[u8],
    object: Object,
) -> Result<(), NoMemory>
    requires { IsObject lines.now object }
    ensures { OnOk result (out.new
        ≡ out.old ++ spaced (word.now ∷ texts.object_name lines.now object ∷ [])) }
{
    out.put_field(word)?;
    out.put_field(object_name(lines, object))
}

/// Adds a word and the name of a queue pair.
fn put_of_qp(out: &mut TextWriter, lines: &Lines, word: &[u8], qp: u32) -> Result<(), NoMemory>
    requires { IsQp lines.now qp }
    ensures { OnOk result (out.new ≡ out.old ++ spaced (word.now ∷ heads.qp_name lines.now qp ∷ [])) }
{
    out.put_field(word)?;
    out.put_field(qp_name(lines, qp))
}

fn put_connecting(out: &mut TextWriter, lines: &Lines, qp: u32, peer: u32) -> Result<(), NoMemory>
    requires qp { IsQp lines.now qp }
    requires peer { IsQp lines.now peer }
    ensures { OnOk result (out.new ≡ out.old ++ spaced
        (codes "init2rtr" ∷ heads.qp_name lines.now qp ∷ heads.qp_name lines.now peer ∷ [])) }
{
    put_of_qp(out, lines, b"init2rtr", qp)?;
    out.put_field(qp_name(lines, peer))
}

fn put_modify(out: &mut TextWriter, lines: &Lines, cq: u32, log: u64) -> Result<(), NoMemory>
    requires { IsCq lines.now cq }
    ensures { OnOk result (out.new
        ≡ out.old ++ spaced (codes "modify" ∷ heads.cq_name lines.now cq ∷ decimal log ∷ [])) }
{
    out.put_field(b"modify")?;
    out.put_field(cq_name(lines, cq))?;
    out.put_number_field(log)
}
