//! Laws of scenario texts that hold with no code.
ghost use Rattle.std.specs.Prelude.{ℕ, ◌≡◌, List};
ghost use Rattle.scenario_text.specs.Heads.{head_text};
ghost use Rattle.scenario_text.specs.Printing.{head_alone, head_of, without_comments};
ghost use Rattle.scenario_text.specs.Running.{CanRun};
ghost use Rattle.scenario_text.specs.Spelling.{scenario_text};
ghost use Rattle.scenario_text.specs.Whole.{Says};
ghost use Rattle.scenario_text.specs.declared.scenario.ScenarioParts.{ScenarioParts};

/// What a text says can run: all objects that it names are declared, all limits are kept, one thread has each
/// side of a queue, and every completion has room.
pub fn scenarios_run()
    ensures { (text : List ℕ) (s : ScenarioParts) → Says text s → CanRun s }
{}

/// The head that is printed of a scenario has the declaration and connect lines of its text, each as it stands
/// there, in their order, and nothing else.
pub fn heads_are_printed()
    ensures { (text : List ℕ) (s : ScenarioParts) → Says text s → head_text s.lines ≡ head_of text }
{}

/// The printed head of a scenario, read back, says what the scenario declares and connects, and no threads.
pub fn heads_are_read()
    ensures { (text : List ℕ) (s : ScenarioParts) → Says text s → Says (head_text s.lines) (head_alone s) }
{}

/// Comments and empty lines say nothing: a text without them says the same scenario.
pub fn comments_say_nothing()
    ensures { (text : List ℕ) (s : ScenarioParts) → Says text s → Says (without_comments text) s }
{}

/// A text says one scenario at most.
pub fn texts_say_one()
    ensures { (text : List ℕ) (s t : ScenarioParts) → Says text s → Says text t → s ≡ t }
{}

/// A text without its comments and empty lines is the text that is printed of the scenario that it says.
pub fn texts_are_printed()
    ensures { (text : List ℕ) (s : ScenarioParts) → Says text s → scenario_text s ≡ without_comments text }
{}

/// The text that is printed of a scenario, read back, says that scenario.
pub fn printed_is_read()
    ensures { (text : List ℕ) (s : ScenarioParts) → Says text s → Says (scenario_text s) s }
{}
