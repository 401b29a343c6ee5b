//! The rows of the table of commands.

ghost use Rattle.std.specs.Prelude.{◌≡◌};
ghost use Rattle.cmd_bodies.specs.Kind.{command_row, kind_of_code};

// The table, written once: `command_rows!(with [arguments])` calls the macro `with` with the arguments
// and the rows. A row is a kind, its opcode in the upper 16 bits and its modifier in the lower, how many
// bytes of input and of output it has, and whether its input has an object number at byte 8 and a second
// number at byte 12.
macro_rules! command_rows {
    ($with:ident $arguments:tt) => {
        $with! {
            $arguments
            (EnableHca 0x0104_0000 16 12 false false)
            (DisableHca 0x0105_0000 16 12 false false)
            (InitHca 0x0102_0000 16 16 false false)
            (TeardownHca 0x0103_0000 16 16 false false)
            (QueryBootPages 0x0107_0001 16 16 false false)
            (QueryInitPages 0x0107_0002 16 16 false false)
            (GivePages 0x0108_0001 16 16 false true)
            (ReturnPages 0x0108_0002 16 16 false true)
            (AllocPd 0x0800_0000 16 16 false false)
            (DeallocPd 0x0801_0000 16 16 true false)
            (AllocUar 0x0802_0000 16 16 false false)
            (DeallocUar 0x0803_0000 16 16 true false)
            (CreateMkey 0x0200_0000 80 16 false false)
            (DestroyMkey 0x0202_0000 16 16 true false)
            (CreateEq 0x0301_0000 48 16 false false)
            (DestroyEq 0x0302_0000 16 16 true false)
            (CreateCq 0x0400_0000 80 16 false false)
            (DestroyCq 0x0401_0000 16 16 true false)
            (ModifyCq 0x0403_0001 80 16 true true)
            (CreateSrq 0x0700_0000 48 16 false false)
            (DestroySrq 0x0701_0000 16 16 true false)
            (CreateQp 0x0500_0000 80 16 false false)
            (DestroyQp 0x0501_0000 16 16 true false)
            (RstToInit 0x0502_0000 16 16 true false)
            (InitToRtr 0x0503_0000 16 16 true true)
            (RtrToRts 0x0504_0000 16 16 true false)
            (ToErr 0x0507_0000 16 16 true false)
        }
    };
}

macro_rules! row_by_kind {
    ([$kind:ident] $(($name:ident $code:literal $in_len:literal $out_len:literal $number:literal $second:literal))*) => {
        match $kind {
            $(Kind::$name => CommandRow {
                code: $code,
                in_len: $in_len,
                out_len: $out_len,
                has_number: $number,
                has_second: $second,
            },)*
        }
    };
}

macro_rules! kind_by_code {
    ([$wanted:ident] $(($name:ident $code:literal $($rest:literal)*))*) => {
        match $wanted {
            $($code => Some(Kind::$name),)*
            _ => None,
        }
    };
}

/// A command of the Programmer's Reference Manual with its modifier.
#[derive(Clone, Copy)]
pub(crate) enum Kind {
    EnableHca,
    DisableHca,
    InitHca,
    TeardownHca,
    QueryBootPages,
    QueryInitPages,
    GivePages,
    ReturnPages,
    AllocPd,
    DeallocPd,
    AllocUar,
    DeallocUar,
    CreateMkey,
    DestroyMkey,
    CreateEq,
    DestroyEq,
    CreateCq,
    DestroyCq,
    ModifyCq,
    CreateSrq,
    DestroySrq,
    CreateQp,
    DestroyQp,
    RstToInit,
    InitToRtr,
    RtrToRts,
    ToErr,
}

/// What the table of commands says of a kind.
#[derive(Clone, Copy)]
pub(crate) struct CommandRow {
    /// The opcode in the upper 16 bits and the modifier in the lower.
    pub code: u32,
    /// How many bytes of input the command has, page addresses aside.
    pub in_len: u32,
    /// How many bytes of output it has, page addresses aside.
    pub out_len: u32,
    /// Whether its input has an object number at byte 8.
    pub has_number: bool,
    /// Whether its input has a second number at byte 12.
    pub has_second: bool,
}

impl Kind {
    /// The kind's row in the table of commands.
    pub(crate) fn row(self) -> CommandRow
        ensures { result ≡ command_row self }
    {
        let kind = self;
        command_rows!(row_by_kind[kind])
    }

    /// The kind with this opcode and modifier. None where no row has them.
    #[tactic(auto, unfolding(crate::specs::Kind::kind_of_code))]
    pub(crate) fn from_code(code: u32) -> Option<Kind>
        ensures { result ≡ kind_of_code code }
    {
        command_rows!(kind_by_code[code])
    }
}
