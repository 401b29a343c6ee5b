//! What holds of every command.
ghost use Rattle.device_commands.specs.Laws.{RefusalsChangeNothing};
ghost use Rattle.device_commands.specs.Life.{KeepsLife};

/// A command whose status is not 0 changes nothing.
pub fn refusals_change_nothing()
    ensures { RefusalsChangeNothing }
{}

/// After any commands on an adapter that was reset, an object lives exactly where one of them made it and none
/// destroyed it since.
pub fn keeps_life()
    ensures { KeepsLife }
{}
