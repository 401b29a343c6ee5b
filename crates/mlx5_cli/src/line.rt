//! The lines for standard error.
ghost use Rattle.std.specs.Prelude.{◌≡◌, ◌≤◌, length};
ghost use Rattle.mlx5_cli.specs.Status.{line_of};
ghost use Rattle.mlx5_cli.specs.declared.status.Status.{Status};

use arrayvec::ArrayString;
use itoa::Buffer;
use scenario_text::{LimitName, TextRule};

/// The most bytes of a line. The longest has a limit's name and twenty digits.
pub const LINE_ROOM: usize = 64;

/// A line with its line end. It does not allocate.
pub type Line = ArrayString<LINE_ROOM>;

/// A line without numbers.
pub fn fixed_line(text: &str) -> Line
    requires { length text.now ≤ LINE_ROOM }
    ensures { result.bytes ≡ text.now }
{
    let mut line = Line::new();
    line.push_str(text);
    line
}

/// The line of an input that is outside its grammar.
pub fn malformed_line(number: u32, rule: TextRule) -> Line
    ensures { result.bytes ≡ line_of (Status.Malformed number rule) }
{
    let mut line = Line::new();
    line.push_str("mlx5: line ");
    line.push_str(Buffer::new().format(number));
    line.push_str(": ");
    line.push_str(rule.as_str());
    line.push_str("\n");
    line
}

/// The line of an input of which a quantity passes its limit.
pub fn limit_line(name: LimitName, value: u64) -> Line
    ensures { result.bytes ≡ line_of (Status.Limit name value) }
{
    let mut line = Line::new();
    line.push_str("mlx5: limit ");
    line.push_str(name.as_str());
    line.push_str(" ");
    line.push_str(Buffer::new().format(value));
    line.push_str("\n");
    line
}
