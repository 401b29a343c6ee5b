//! How the program ends: the exit status of the process, and what it says on standard error.
ghost use Rattle.std.specs.Prelude.{◌≡◌};

/// How the program ended. The numbers are those of `mlx5`.
#[derive(Clone, Copy, Debug, PartialEq, Eq)]
pub enum Status {
    /// Each line was answered.
    Done,
    /// There are words after the program's name. Nothing was read or written.
    Usage,
    /// The input has more bytes than there is a number for.
    Limit,
    /// A read failed. The lines before it were answered.
    ReadFault,
    /// A write failed. A part of the answers may be out.
    WriteFault,
    /// There was no memory left. Some of the lines were answered.
    NoMemory,
}

impl Status {
    ghost use Rattle.mlx5_dump.specs.Status.{number_of, line_of};

    /// The exit status of the process.
    pub fn number(self) -> u8
        ensures { result ≡ number_of self }
    {
        match self {
            Status::Done => 0,
            Status::Usage => 2,
            Status::Limit => 4,
            Status::ReadFault => 5,
            Status::WriteFault => 6,
            Status::NoMemory => 8,
        }
    }

    /// The line for standard error with its line end, or nothing where there is no line to say.
    pub fn line(self) -> &'static str
        ensures { result.now ≡ line_of self }
    {
        match self {
            Status::Done => "",
            Status::Usage => "mlx5_dump: usage\n",
            Status::Limit => "mlx5_dump: limit\n",
            Status::ReadFault => "mlx5_dump: read fault\n",
            Status::WriteFault => "mlx5_dump: write fault\n",
            Status::NoMemory => "mlx5_dump: no memory\n",
        }
    }
}
