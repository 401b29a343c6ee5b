//! A cell of data memory as a word.
ghost use Rattle.std.specs.Prelude.{◌≡◌, ◌<◌, ◌^◌};
ghost use Rattle.mem_cells.specs.Cell as cells;

/// The word of a cell that holds this byte, by the writer's write of this count. The byte is in bits
/// 63 to 56, the writer in bits 55 to 48, the count in the 48 bits below. The format is this
/// project's own.
pub fn pack(byte: u8, writer: u8, count: u64) -> u64
    requires { count < 2 ^ 48 }
    ensures word { result ≡ cells.word_of (record { byte = byte; writer = writer; count = count }) }
    ensures cell { cells.cell_of result ≡ record { byte = byte; writer = writer; count = count } }
{
    ((byte as u64) << 56) + ((writer as u64) << 48) + count
}

/// The byte of a cell.
pub fn byte_of(cell: u64) -> u8
    ensures { result ≡ cells.byte_of cell }
{
    (cell >> 56) as u8
}

/// The actor that wrote a cell last. A cell whose count is 0 was written by nobody.
pub fn writer_of(cell: u64) -> u8
    ensures { result ≡ cells.writer_of cell }
{
    (cell >> 48 & 0xff) as u8
}

/// Which of its writer's writes left a cell: 1 is the first.
pub fn count_of(cell: u64) -> u64
    ensures { result ≡ cells.count_of cell }
{
    cell & 0xffff_ffff_ffff
}
