//! What holds of an adapter after any calls.
ghost use Rattle.std.specs.Prelude.{List};
ghost use Rattle.hca_pages.specs.Calls.{Call};
ghost use Rattle.hca_pages.specs.Ledger.{KeepsLedger};

/// After any sequence of calls an adapter holds at most 88 pages, all different and multiples of
/// 4096, and these are the pages that were given and not taken back since; a running one holds 88.
/// Each page that it gives back is one of those.
pub fn keeps_ledger()
    ensures { (calls : List Call) → KeepsLedger calls }
{}
