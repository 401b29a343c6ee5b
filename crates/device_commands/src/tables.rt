//! The tables of an adapter.
ghost use Rattle.std.specs.Prelude.{◌≡◌, IfOk, IsTrue};
ghost use Rattle.qp_state.specs.declared.moves.QpMove.TheVariants.{ToErr};
ghost use Rattle.cmd_bodies.specs.Reply.{no_pages, reply_of as reply_of_numbers};
ghost use Rattle.cmd_bodies.specs.declared.command.Command.TheVariants as command;
ghost use Rattle.device_commands.specs.Objects.{eq_lives, cq_lives, qp_lives};
ghost use Rattle.device_commands.specs.Tables.{reset, qp_now};
ghost use Rattle.device_commands.specs.Rules.{refusal_of, object_refusal, running_refusal, is_of_objects};
ghost use Rattle.device_commands.specs.Effect.{after, after_object, answered, effect, good_reply, moved, reply_of, reply_to_object, unless_refused};
ghost use Rattle.device_commands.specs.Answers.{plain_answer, numbered_answer, adapter_answer};

use crate::objects::ObjectTables;
use crate::refusal::Refusal;
use cmd_bodies::{Command, PageList, PageUse as Asked, Reply};
use hca_pages::{Hca, HcaFault, PAGE_LIMIT, Phase};
use qp_state::{QpMove, QpState};
use std::alloc::Global;
use std::marker::Model;
use verbs_types::{Declared, NoMemory, PageUse};

/// A queue pair that lives, as an adapter needs it for its work.
#[derive(Clone, Copy, Debug, PartialEq, Eq)]
pub struct QpNow {
    /// The number of its protection domain.
    pub pd: u32,
    pub state: QpState,
    /// The queue pair at the other end, once INIT2RTR_QP named it.
    pub peer: Option<u32>,
}

/// A completion queue of which MODIFY_CQ speaks, as its resize found it.
#[derive(Clone, Copy, Debug, PartialEq, Eq)]
pub struct CqNow {
    /// The producer index.
    pub index: u64,
    /// The consumer index.
    pub ci: u64,
    /// Whether the queue has overrun.
    pub overrun: bool,
}

/// The tables of an adapter: how far it is started, its pages, and the objects that live.
#[derive(Drop)]
pub struct DeviceTables {
    hca: Hca,
    objects: ObjectTables,
}

impl Model for DeviceTables {
    ghost use Rattle.device_commands.specs.Tables.{Tables};

    ghost Value = { Tables };

    ghost use Rattle.device_commands.specs.Inside.{tables_view};

    ghost view = { tables_view };
}

const NO_PAGES: [u64; 88] = [0; 88];

impl DeviceTables {
    /// An adapter that is off and has no object, with room for all objects that are declared.
    pub fn new(alloc: Global, d: &Declared) -> Result<DeviceTables, NoMemory>
        ensures { IfOk result (λ t. t ≡ reset d.now) }
    {
        let hca = Hca::new(alloc)?;
        match ObjectTables::new(alloc, d.lines()) {
            Ok(objects) => Ok(DeviceTables { hca, objects }),
            Err(_) => Err(NoMemory),
        }
    }

    /// Does a command and gives its reply. It takes no memory, and the time of lists of pages aside it takes the
    /// same time however many objects there are.
    ///
    /// Where the status is not 0 nothing has changed. Commands on memory keys and shared receive queues and
    /// MODIFY_CQ are not done yet: they are answered with 0x02, whatever `_cq` says of the queue.
    pub fn execute(&mut self, c: &Command, _cq: Option<CqNow>) -> Reply
        ensures reply { result ≡ reply_of self.old c.now }
        ensures after { self.new ≡ after self.old c.now }
    {
        match self.perform(c) {
            Ok(reply) => reply,
            Err(refusal) => reply_with(refusal.status(), 0, 0),
        }
    }

    /// The status of a MODIFY_CQ before its resize, by what the tables say. It is not done yet: 0x02.
    pub fn modify_status(&self, _c: &Command, _overrun: bool) -> u8
        ensures { result ≡ 0x02 }
    {
        Refusal::NotDone.status()
    }

    /// The queue pair of this number, if it lives.
    pub fn qp(&self, number: u32) -> Option<QpNow>
        ensures { result ≡ qp_now self.now number }
    {
        let pair = self.objects.pair(number)?;
        Some(QpNow {
            pd: pair.shape.pd,
            state: pair.state,
            peer: pair.peer,
        })
    }

    /// Whether an event queue lives.
    pub fn eq_lives(&self, number: u32) -> bool
        ensures { result ≡ eq_lives self.now.objects number }
    {
        self.objects.eq_lives(number)
    }

    /// Whether a completion queue lives.
    pub fn cq_lives(&self, number: u32) -> bool
        ensures { result ≡ cq_lives self.now.objects number }
    {
        self.objects.cq(number).is_some()
    }

    /// Puts a live queue pair into the error state, as 2ERR_QP does.
    pub fn to_error(&mut self, qp: u32)
        requires { IsTrue (qp_lives self.old.objects qp) }
        ensures { self.new ≡ record self.old { objects = moved self.old.objects qp ToErr } }
    {
        let _always = self.objects.move_pair(qp, QpMove::ToErr);
    }

    fn perform(&mut self, c: &Command) -> Result<Reply, Refusal>
        ensures answer { result ≡ answered (refusal_of self.old c.now) (good_reply self.old c.now) }
        ensures after { self.new ≡ after self.old c.now }
    {
        match c {
            Command::EnableHca => plain(of_adapter(self.hca.enable())),
            Command::DisableHca => plain(of_adapter(self.hca.disable())),
            Command::InitHca => plain(of_adapter(self.hca.init())),
            Command::TeardownHca => plain(of_adapter(self.hca.teardown())),
            Command::QueryPages(which) => self.query(*which),
            Command::GivePages(list) => self.give(list),
            Command::ReturnPages { count } => self.take_back(*count),
            Command::CreateMkey(_)
            | Command::DestroyMkey { .. }
            | Command::ModifyCq { .. }
            | Command::CreateSrq(_)
            | Command::DestroySrq { .. } => Err(Refusal::NotDone),
            _ => self.perform_on_objects(c),
        }
    }

    /// A command on objects, which needs a running adapter.
    fn perform_on_objects(&mut self, c: &Command) -> Result<Reply, Refusal>
        requires { IsTrue (is_of_objects c.now) }
        ensures answer { result ≡ answered (running_refusal self.old c.now) (good_reply self.old c.now) }
        ensures after { self.new ≡ unless_refused (running_refusal self.old c.now) self.old (effect self.old c.now) }
    {
        if self.hca.phase() != Phase::Running {
            return Err(Refusal::Adapter(HcaFault::BadSystemState));
        }
        perform_while_running(&mut self.objects, c)
    }

    fn query(&self, which: Asked) -> Result<Reply, Refusal>
        ensures { result ≡ answered (refusal_of self.now (command.QueryPages which)) (good_reply self.now (command.QueryPages which)) }
    {
        let which = match which {
            Asked::Boot => PageUse::Boot,
            Asked::Init => PageUse::Init,
        };
        match self.hca.query(which) {
            Ok(count) => Ok(reply_with(0, 0, count)),
            Err(fault) => Err(Refusal::Adapter(fault)),
        }
    }

    fn give(&mut self, list: &PageList) -> Result<Reply, Refusal>
        ensures answer { result ≡ answered (refusal_of self.old (command.GivePages list.now)) (good_reply self.old (command.GivePages list.now)) }
        ensures after { self.new ≡ after self.old (command.GivePages list.now) }
    {
        if list.count > PAGE_LIMIT {
            return Err(Refusal::BadParameter);
        }
        plain(of_adapter(self.hca.give(&list.pages[..list.count as usize])))
    }

    fn take_back(&mut self, count: u32) -> Result<Reply, Refusal>
        ensures answer { result ≡ answered (refusal_of self.old (command.ReturnPages count)) (good_reply self.old (command.ReturnPages count)) }
        ensures after { self.new ≡ after self.old (command.ReturnPages count) }
    {
        if count > PAGE_LIMIT {
            return Err(Refusal::BadParameter);
        }
        let mut list = NO_PAGES;
        match self.hca.take_back(count, &mut list) {
            Ok(()) => Ok(Reply {
                status: 0,
                number: count,
                pages: count,
                list,
            }),
            Err(fault) => Err(Refusal::Adapter(fault)),
        }
    }
}

/// A command on objects, of a running adapter.
fn perform_while_running(objects: &mut ObjectTables, c: &Command) -> Result<Reply, Refusal>
    requires { IsTrue (is_of_objects c.now) }
    ensures answer { result ≡ answered (object_refusal objects.old c.now) (reply_to_object objects.old c.now) }
    ensures after { objects.new ≡ after_object objects.old c.now }
{
    match c {
        Command::AllocPd => numbered(objects.alloc_pd()),
        Command::DeallocPd { pd } => plain(objects.dealloc_pd(*pd)),
        Command::AllocUar => numbered(objects.alloc_uar()),
        Command::DeallocUar { page } => plain(objects.dealloc_uar(*page)),
        Command::CreateEq(block) => numbered(objects.create_eq(block)),
        Command::DestroyEq { eq } => plain(objects.destroy_eq(*eq)),
        Command::CreateCq(context) => numbered(objects.create_cq(context)),
        Command::DestroyCq { cq } => plain(objects.destroy_cq(*cq)),
        Command::CreateQp(block) => numbered(objects.create_qp(block)),
        Command::DestroyQp { qp } => plain(objects.destroy_qp(*qp)),
        Command::RstToInit { qp } => plain(objects.move_pair(*qp, QpMove::ToInit)),
        Command::InitToRtr { qp, peer } => plain(objects.connect(*qp, *peer)),
        Command::RtrToRts { qp } => plain(objects.move_pair(*qp, QpMove::ToRts)),
        Command::ToErr { qp } => plain(objects.move_pair(*qp, QpMove::ToErr)),
        _ => Err(Refusal::NotDone),
    }
}

/// The reply to a command that is done and makes nothing.
fn plain(answer: Result<(), Refusal>) -> Result<Reply, Refusal>
    ensures { result ≡ plain_answer answer }
{
    match answer {
        Ok(()) => Ok(reply_with(0, 0, 0)),
        Err(refusal) => Err(refusal),
    }
}

/// The reply to a command that makes an object with this number.
fn numbered(answer: Result<u32, Refusal>) -> Result<Reply, Refusal>
    ensures { result ≡ numbered_answer answer }
{
    match answer {
        Ok(number) => Ok(reply_with(0, number, 0)),
        Err(refusal) => Err(refusal),
    }
}

fn of_adapter(answer: Result<(), HcaFault>) -> Result<(), Refusal>
    ensures { result ≡ adapter_answer answer }
{
    match answer {
        Ok(()) => Ok(()),
        Err(fault) => Err(Refusal::Adapter(fault)),
    }
}

fn reply_with(status: u8, number: u32, pages: u32) -> Reply
    ensures { result ≡ reply_of_numbers status number pages no_pages }
{
    Reply {
        status,
        number,
        pages,
        list: NO_PAGES,
    }
}
