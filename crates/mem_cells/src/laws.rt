//! What holds of every trace of an arena of cells.
ghost use Rattle.std.specs.Prelude.{ℕ, List};
ghost use Rattle.bus_core.specs.Mark.{Marked};
ghost use Rattle.bus_core.specs.Trace.{Memory};
ghost use Rattle.mem_cells.specs.Arena.{IsLegal, empty_arena};
ghost use Rattle.mem_cells.specs.Keeps.{KeepsBytes, NamesOneWrite};
ghost use Rattle.mem_cells.specs.Law.{IsRun, history};
ghost use Rattle.mem_cells.specs.Mark.{CellMark};
ghost use Rattle.mem_cells.specs.Place.{ArenaPlace};

/// In every consistent trace in which each actor keeps the rule of its user, while nobody else writes
/// the cells, what the users' operations say is, in the trace's order, a legal history of a table of
/// cells.
pub fn stands()
    ensures { (place : ArenaPlace) (start : Memory) (trace : List (Marked CellMark)) →
        IsRun place start trace → IsLegal place.cells empty_arena (history place trace) }
{}

/// What such a history says of bytes: a read sees what the last write to its cell left, and a write
/// finds that.
pub fn keeps_bytes()
    ensures { (size : ℕ) → KeepsBytes size }
{}

/// What it says of writers and counts: they name one write, and a cell that shows them again was not
/// written in between.
pub fn names_one_write()
    ensures { (size : ℕ) → NamesOneWrite size }
{}
