//! The types of verbs queues as InfiniBand means them: requests and receives, completions, a thread's
//! calls, the lines of declared objects, and the entries of a history. No state and no rule.
#![tactic(auto)]

mod call;
mod command;
mod completion;
mod declaration;
mod entry;
mod name;
mod request;
mod sequence;
mod state;

pub use call::Call;
pub use command::{Answer, HistoryCommand, PageUse, Region, Rights};
pub use completion::{ArmKind, Completion, EventRecord, Kind, Queue};
pub use declaration::{
    Connect, CqLine, Declared, EqLine, FIRST_PD, FIRST_QP, Lines, NotDeclared, Object, PdLine,
    QpLine, is_among,
};
pub use entry::{ADAPTER, CONTROL, CheckFault, Entry, Illegal, NoMemory, RuleName, What};
pub use name::{Name, NameFault, is_name};
pub use request::{Body, Item, Op, Receive, Request, Sge};
pub use sequence::Sequence;
pub use state::{Act, QpState, QueuePair, Unpolled};
