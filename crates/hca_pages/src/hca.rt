//! The adapter as its start order and its pages see it.
ghost use Rattle.std.specs.Prelude.{◌≡◌, ◌++◌, drop, length, IfOk};
ghost use Rattle.hca_pages.specs.Adapter.{off};
ghost use Rattle.hca_pages.specs.Calls.{Enable, Query, Give, Init, Teardown, TakeBack, Disable, after_call, pages_back};
ghost use Rattle.hca_pages.specs.Faults.{answered, order_fault, enable_fault, query_fault, give_fault, init_fault, teardown_fault, take_back_fault, disable_fault};
ghost use Rattle.hca_pages.specs.Page.{page_count};

use crate::fault::HcaFault;
use crate::page::{PAGE_LIMIT, first_unfit, page_count};
use crate::phase::Phase;
use std::alloc::Global;
use std::marker::Model;
use verbs_types::{NoMemory, PageUse};

/// An adapter, from ENABLE_HCA to DISABLE_HCA: how far it is started, and which pages of host memory
/// it holds. The commands are those of the Programmer's Reference Manual. A call that is refused
/// changes nothing, and no call but `new` takes memory.
#[derive(Drop)]
pub struct Hca {
    phase: Phase,
    pages: Vec<u64>,
}

impl Model for Hca {
    ghost use Rattle.hca_pages.specs.Adapter.{Adapter};

    ghost Value = { Adapter };

    ghost use Rattle.hca_pages.specs.HcaInside.{hca_view, IsHca};

    ghost view = { hca_view };

    ghost invariant = { IsHca };
}

impl Hca {
    /// An adapter that is off and holds no pages, with room for all that it can hold.
    pub fn new(alloc: Global) -> Result<Hca, NoMemory>
        ensures { IfOk result (λ hca. hca ≡ off) }
    {
        match Vec::with_capacity(alloc, PAGE_LIMIT as usize) {
            Ok(pages) => Ok(Hca {
                phase: Phase::Off,
                pages,
            }),
            Err(_) => Err(NoMemory),
        }
    }

    /// How far it is started.
    pub fn phase(&self) -> Phase
        ensures { result ≡ self.now.phase }
    {
        self.phase
    }

    /// The addresses of the pages that it holds, in the order in which they were given.
    pub fn pages(&self) -> &[u64]
        ensures { result.now ≡ self.now.pages }
    {
        self.pages.as_slice()
    }

    /// ENABLE_HCA, of an adapter that is off.
    pub fn enable(&mut self) -> Result<(), HcaFault>
        ensures answer { result ≡ answered (enable_fault self.old) tt }
        ensures after { self.new ≡ after_call self.old Enable }
    {
        if self.phase != Phase::Off {
            return Err(HcaFault::BadSystemState);
        }
        self.phase = Phase::Enabled;
        Ok(())
    }

    /// QUERY_PAGES: how many pages it needs for this use, whatever it holds.
    pub fn query(&self, which: PageUse) -> Result<u32, HcaFault>
        ensures { result ≡ answered (query_fault self.now) (page_count which) }
    {
        self.in_order()?;
        Ok(page_count(which))
    }

    /// MANAGE_PAGES, by which the host gives pages.
    pub fn give(&mut self, pages: &[u64]) -> Result<(), HcaFault>
        ensures answer { result ≡ answered (give_fault self.old pages.now) tt }
        ensures after { self.new ≡ after_call self.old (Give pages.now) }
    {
        self.in_order()?;
        if let Some(page) = first_unfit(self.pages.as_slice(), pages) {
            return Err(HcaFault::BadParameter { page });
        }
        let total = self.pages.len() + pages.len();
        if total > PAGE_LIMIT as usize {
            return Err(HcaFault::Limit {
                pages: u32::try_from(total).unwrap_or(u32::MAX),
            });
        }
        self.pages.extend_from_slice(pages).unwrap();
        Ok(())
    }

    /// INIT_HCA, of an adapter that holds the 88 pages that it needs.
    pub fn init(&mut self) -> Result<(), HcaFault>
        ensures answer { result ≡ answered (init_fault self.old) tt }
        ensures after { self.new ≡ after_call self.old Init }
    {
        self.in_order()?;
        let held = self.pages.len() as u32;
        if held < PAGE_LIMIT {
            return Err(HcaFault::NoPages {
                needed: PAGE_LIMIT,
                held,
            });
        }
        self.phase = Phase::Running;
        Ok(())
    }

    /// TEARDOWN_HCA, of a running adapter. It keeps its pages.
    pub fn teardown(&mut self) -> Result<(), HcaFault>
        ensures answer { result ≡ answered (teardown_fault self.old) tt }
        ensures after { self.new ≡ after_call self.old Teardown }
    {
        if self.phase != Phase::Running {
            return Err(HcaFault::BadSystemState);
        }
        self.phase = Phase::Enabled;
        Ok(())
    }

    /// MANAGE_PAGES, by which the host takes `n` pages back: those given last, which `to` then has
    /// in the order in which they were given, from its first place on. Its other places stay.
    pub fn take_back(&mut self, n: u32, to: &mut [u64; 88]) -> Result<(), HcaFault>
        ensures answer { result ≡ answered (take_back_fault self.old n) tt }
        ensures after { self.new ≡ after_call self.old (TakeBack n) }
        ensures pages { to.new ≡ pages_back self.old n ++ drop (length (pages_back self.old n)) to.old }
    {
        self.in_order()?;
        let count = n as usize;
        if count > self.pages.len() {
            return Err(HcaFault::BadParameter { page: n as u64 });
        }
        let kept = self.pages.len() - count;
        to[..count].copy_from_slice(&self.pages.as_slice()[kept..]);
        self.pages.truncate(kept);
        Ok(())
    }

    /// DISABLE_HCA, of an adapter that holds no pages.
    pub fn disable(&mut self) -> Result<(), HcaFault>
        ensures answer { result ≡ answered (disable_fault self.old) tt }
        ensures after { self.new ≡ after_call self.old Disable }
    {
        self.in_order()?;
        if !self.pages.is_empty() {
            return Err(HcaFault::BadSystemState);
        }
        self.phase = Phase::Off;
        Ok(())
    }

    /// Refuses what is only in order while the adapter is enabled and not running.
    fn in_order(&self) -> Result<(), HcaFault>
        ensures { result ≡ answered (order_fault self.now) tt }
    {
        if self.phase == Phase::Enabled {
            Ok(())
        } else {
            Err(HcaFault::BadSystemState)
        }
    }
}
