//! What the words after the program's name ask for.
ghost use Rattle.std.specs.Prelude.{◌≡◌, ◌≢◌, IfSome, IfNone, map, string_bytes};
ghost use Rattle.prm_fields.specs.Names.{layout_text};
ghost use Rattle.prm_fields.specs.declared.layout.LayoutName.{LayoutName as Layout};
ghost use Rattle.mlx5_cli.specs.Command.{words_of, AskNothing};

use prm_fields::LayoutName;

/// What the program is asked to do.
#[derive(Clone, Copy, Debug, PartialEq, Eq)]
pub enum Command {
    /// `run`: read a scenario and write the history of its run.
    Run,
    /// `layout NAME`: write the rows of a layout.
    Layout(LayoutName),
}

/// All layouts.
const LAYOUTS: [LayoutName; 17] = [
    LayoutName::Cqe,
    LayoutName::CqeErr,
    LayoutName::EqeCq,
    LayoutName::EqeError,
    LayoutName::Ctrl,
    LayoutName::Raddr,
    LayoutName::Atomic,
    LayoutName::DataUnit,
    LayoutName::Inline,
    LayoutName::Next,
    LayoutName::CmdEntry,
    LayoutName::BlockTail,
    LayoutName::CqContext,
    LayoutName::MkeyContext,
    LayoutName::EqBlock,
    LayoutName::SrqBlock,
    LayoutName::QpBlock,
];

/// The command that the words ask for, or `None` where they are no form of one.
pub fn command_of(words: &[String]) -> Option<Command>
    ensures found { IfSome result (λ command. map string_bytes words.now ≡ words_of command) }
    ensures none { IfNone result (AskNothing (map string_bytes words.now)) }
{
    match words {
        [word] if word.as_str() == "run" => Some(Command::Run),
        [word, name] if word.as_str() == "layout" => {
            Some(Command::Layout(layout_named(name.as_str())?))
        }
        _ => None,
    }
}

/// The layout with a name.
fn layout_named(name: &str) -> Option<LayoutName>
    ensures found { IfSome result (λ layout. name.now ≡ layout_text layout) }
    ensures none { IfNone result ((layout : Layout) → name.now ≢ layout_text layout) }
{
    LAYOUTS.iter().find(|layout| layout.text() == name).copied()
}
