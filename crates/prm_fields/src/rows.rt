//! The rows of each layout, written once: `NAME_rows!(with [arguments])` calls the macro `with` with
//! the arguments and the layout's rows, each a field's name, its first bit and its width.
//!
//! From the Programmer's Reference Manual; the contexts, the parameter blocks and the bits that are
//! reserved are this project's own profile.

#[macro_export]
macro_rules! cqe_rows {
    ($with:ident $arguments:tt) => {
        $with! {
            $arguments
            (Reserved 0 192)
            (FlagsRqpn 192 32)
            (Reserved 224 32)
            (SrqnUidx 256 32)
            (ImmInvalPkey 288 32)
            (Reserved 320 32)
            (ByteCnt 352 32)
            (Timestamp 384 64)
            (Sop 448 8)
            (Qpn 456 24)
            (WqeCounter 480 16)
            (Signature 496 8)
            (Opcode 504 4)
            (Format 508 2)
            (Solicited 510 1)
            (Owner 511 1)
        }
    };
}

#[macro_export]
macro_rules! cqe_err_rows {
    ($with:ident $arguments:tt) => {
        $with! {
            $arguments
            (Reserved 0 256)
            (SrqnUidx 256 32)
            (Reserved 288 144)
            (VendorSyndrome 432 8)
            (Syndrome 440 8)
            (Sop 448 8)
            (Qpn 456 24)
            (WqeCounter 480 16)
            (Signature 496 8)
            (Opcode 504 4)
            (Format 508 2)
            (Solicited 510 1)
            (Owner 511 1)
        }
    };
}

#[macro_export]
macro_rules! eqe_cq_rows {
    ($with:ident $arguments:tt) => {
        $with! {
            $arguments
            (Reserved 0 8)
            (TypeByte 8 8)
            (Reserved 16 8)
            (SubType 24 8)
            (Reserved 32 416)
            (Cqn 448 32)
            (Reserved 480 16)
            (Signature 496 8)
            (Reserved 504 7)
            (Owner 511 1)
        }
    };
}

#[macro_export]
macro_rules! eqe_error_rows {
    ($with:ident $arguments:tt) => {
        $with! {
            $arguments
            (Reserved 0 8)
            (TypeByte 8 8)
            (Reserved 16 8)
            (SubType 24 8)
            (Reserved 32 224)
            (Cqn 256 32)
            (Reserved 288 208)
            (Signature 496 8)
            (Reserved 504 7)
            (Owner 511 1)
        }
    };
}

#[macro_export]
macro_rules! ctrl_rows {
    ($with:ident $arguments:tt) => {
        $with! {
            $arguments
            (Opmod 0 8)
            (Index 8 16)
            (Opcode 24 8)
            (Qpn 32 24)
            (Ds 56 8)
            (Signature 64 8)
            (Reserved 72 16)
            (Flags 88 8)
            (Imm 96 32)
        }
    };
}

#[macro_export]
macro_rules! raddr_rows {
    ($with:ident $arguments:tt) => {
        $with! {
            $arguments
            (Addr 0 64)
            (Rkey 64 32)
            (Reserved 96 32)
        }
    };
}

#[macro_export]
macro_rules! atomic_rows {
    ($with:ident $arguments:tt) => {
        $with! {
            $arguments
            (SwapOrAdd 0 64)
            (Compare 64 64)
        }
    };
}

#[macro_export]
macro_rules! data_rows {
    ($with:ident $arguments:tt) => {
        $with! {
            $arguments
            (ByteCount 0 32)
            (Lkey 32 32)
            (Addr 64 64)
        }
    };
}

#[macro_export]
macro_rules! inline_rows {
    ($with:ident $arguments:tt) => {
        $with! {
            $arguments
            (Inline 0 1)
            (ByteCount 1 31)
        }
    };
}

#[macro_export]
macro_rules! next_rows {
    ($with:ident $arguments:tt) => {
        $with! {
            $arguments
            (Reserved 0 16)
            (NextWqeIndex 16 16)
            (Reserved 32 96)
        }
    };
}

#[macro_export]
macro_rules! cmd_entry_rows {
    ($with:ident $arguments:tt) => {
        $with! {
            $arguments
            (TypeByte 0 8)
            (Reserved 8 24)
            (InLen 32 32)
            (InPtr 64 64)
            (InputHi 128 64)
            (InputLo 192 64)
            (OutputHi 256 64)
            (OutputLo 320 64)
            (OutPtr 384 64)
            (OutLen 448 32)
            (Token 480 8)
            (Signature 488 8)
            (Reserved 496 8)
            (StatusOwn 504 8)
        }
    };
}

#[macro_export]
macro_rules! block_tail_rows {
    ($with:ident $arguments:tt) => {
        $with! {
            $arguments
            (Reserved 0 384)
            (Next 384 64)
            (Number 448 32)
            (Reserved 480 8)
            (Token 488 8)
            (CtrlSignature 496 8)
            (Signature 504 8)
        }
    };
}

#[macro_export]
macro_rules! cq_context_rows {
    ($with:ident $arguments:tt) => {
        $with! {
            $arguments
            (Reserved 0 8)
            (CqeSz 8 3)
            (Reserved 11 88)
            (LogCqSize 99 5)
            (UarPage 104 24)
            (Reserved 128 56)
            (CEqn 184 8)
            (Reserved 192 256)
            (DbrAddr 448 64)
        }
    };
}

#[macro_export]
macro_rules! mkey_context_rows {
    ($with:ident $arguments:tt) => {
        $with! {
            $arguments
            (Reserved 0 17)
            (A 17 1)
            (Rw 18 1)
            (Rr 19 1)
            (Lw 20 1)
            (Lr 21 1)
            (Reserved 22 34)
            (Mkey7To0 56 8)
            (Reserved 64 40)
            (Pd 104 24)
            (StartAddr 128 64)
            (Len 192 64)
            (Reserved 256 256)
        }
    };
}

#[macro_export]
macro_rules! eq_block_rows {
    ($with:ident $arguments:tt) => {
        $with! {
            $arguments
            (Log 0 32)
            (Uar 32 32)
            (Addr 64 64)
            (Reserved 128 128)
        }
    };
}

#[macro_export]
macro_rules! srq_block_rows {
    ($with:ident $arguments:tt) => {
        $with! {
            $arguments
            (Log 0 32)
            (Segments 32 32)
            (Pd 64 32)
            (Reserved 96 32)
            (Addr 128 64)
            (Reserved 192 64)
        }
    };
}

#[macro_export]
macro_rules! qp_block_rows {
    ($with:ident $arguments:tt) => {
        $with! {
            $arguments
            (Pd 0 32)
            (SendCq 32 32)
            (RecvCq 64 32)
            (SendLog 96 32)
            (RecvLog 128 32)
            (Segments 160 32)
            (Srq 192 32)
            (Uar 224 32)
            (Addr 256 64)
            (Reserved 320 192)
        }
    };
}
