//! The order in which an adapter is started and stopped, and the pages of memory that it holds.
//!
//! A host enables the adapter, gives it pages, and initialises it; to stop it, the host tears it down,
//! takes the pages back and disables it. `Hca` refuses what is out of that order, and keeps the
//! ledger of pages; `laws::keeps_ledger` says what the ledger is worth after any sequence of calls.
#![tactic(auto)]

mod fault;
mod hca;
pub mod laws;
mod page;
mod phase;

pub use fault::HcaFault;
pub use hca::Hca;
pub use page::{PAGE_LIMIT, PAGE_SIZE};
pub use phase::Phase;
