//! A row of a layout by its name: `cqe_rows!(field_of[Qpn])` is the `Field` of that row, and
//! `cqe_rows!(byte_of[Qpn])` the byte in which it begins.
//!
//! A name that the layout lacks does not compile.

/// The `Field` of the row with a name.
#[macro_export]
macro_rules! field_of {
    ([FlagsRqpn] (FlagsRqpn $bit:literal $width:literal) $($rows:tt)*) => { $crate::Field::<$bit, $width> };
    ([SrqnUidx] (SrqnUidx $bit:literal $width:literal) $($rows:tt)*) => { $crate::Field::<$bit, $width> };
    ([ImmInvalPkey] (ImmInvalPkey $bit:literal $width:literal) $($rows:tt)*) => { $crate::Field::<$bit, $width> };
    ([ByteCnt] (ByteCnt $bit:literal $width:literal) $($rows:tt)*) => { $crate::Field::<$bit, $width> };
    ([Timestamp] (Timestamp $bit:literal $width:literal) $($rows:tt)*) => { $crate::Field::<$bit, $width> };
    ([Sop] (Sop $bit:literal $width:literal) $($rows:tt)*) => { $crate::Field::<$bit, $width> };
    ([Qpn] (Qpn $bit:literal $width:literal) $($rows:tt)*) => { $crate::Field::<$bit, $width> };
    ([WqeCounter] (WqeCounter $bit:literal $width:literal) $($rows:tt)*) => { $crate::Field::<$bit, $width> };
    ([Signature] (Signature $bit:literal $width:literal) $($rows:tt)*) => { $crate::Field::<$bit, $width> };
    ([Opcode] (Opcode $bit:literal $width:literal) $($rows:tt)*) => { $crate::Field::<$bit, $width> };
    ([Format] (Format $bit:literal $width:literal) $($rows:tt)*) => { $crate::Field::<$bit, $width> };
    ([Solicited] (Solicited $bit:literal $width:literal) $($rows:tt)*) => { $crate::Field::<$bit, $width> };
    ([Owner] (Owner $bit:literal $width:literal) $($rows:tt)*) => { $crate::Field::<$bit, $width> };
    ([VendorSyndrome] (VendorSyndrome $bit:literal $width:literal) $($rows:tt)*) => { $crate::Field::<$bit, $width> };
    ([Syndrome] (Syndrome $bit:literal $width:literal) $($rows:tt)*) => { $crate::Field::<$bit, $width> };
    ([TypeByte] (TypeByte $bit:literal $width:literal) $($rows:tt)*) => { $crate::Field::<$bit, $width> };
    ([SubType] (SubType $bit:literal $width:literal) $($rows:tt)*) => { $crate::Field::<$bit, $width> };
    ([Cqn] (Cqn $bit:literal $width:literal) $($rows:tt)*) => { $crate::Field::<$bit, $width> };
    ([Opmod] (Opmod $bit:literal $width:literal) $($rows:tt)*) => { $crate::Field::<$bit, $width> };
    ([Index] (Index $bit:literal $width:literal) $($rows:tt)*) => { $crate::Field::<$bit, $width> };
    ([Ds] (Ds $bit:literal $width:literal) $($rows:tt)*) => { $crate::Field::<$bit, $width> };
    ([Flags] (Flags $bit:literal $width:literal) $($rows:tt)*) => { $crate::Field::<$bit, $width> };
    ([Imm] (Imm $bit:literal $width:literal) $($rows:tt)*) => { $crate::Field::<$bit, $width> };
    ([Addr] (Addr $bit:literal $width:literal) $($rows:tt)*) => { $crate::Field::<$bit, $width> };
    ([Rkey] (Rkey $bit:literal $width:literal) $($rows:tt)*) => { $crate::Field::<$bit, $width> };
    ([SwapOrAdd] (SwapOrAdd $bit:literal $width:literal) $($rows:tt)*) => { $crate::Field::<$bit, $width> };
    ([Compare] (Compare $bit:literal $width:literal) $($rows:tt)*) => { $crate::Field::<$bit, $width> };
    ([ByteCount] (ByteCount $bit:literal $width:literal) $($rows:tt)*) => { $crate::Field::<$bit, $width> };
    ([Lkey] (Lkey $bit:literal $width:literal) $($rows:tt)*) => { $crate::Field::<$bit, $width> };
    ([Inline] (Inline $bit:literal $width:literal) $($rows:tt)*) => { $crate::Field::<$bit, $width> };
    ([NextWqeIndex] (NextWqeIndex $bit:literal $width:literal) $($rows:tt)*) => { $crate::Field::<$bit, $width> };
    ([InLen] (InLen $bit:literal $width:literal) $($rows:tt)*) => { $crate::Field::<$bit, $width> };
    ([InPtr] (InPtr $bit:literal $width:literal) $($rows:tt)*) => { $crate::Field::<$bit, $width> };
    ([InputHi] (InputHi $bit:literal $width:literal) $($rows:tt)*) => { $crate::Field::<$bit, $width> };
    ([InputLo] (InputLo $bit:literal $width:literal) $($rows:tt)*) => { $crate::Field::<$bit, $width> };
    ([OutputHi] (OutputHi $bit:literal $width:literal) $($rows:tt)*) => { $crate::Field::<$bit, $width> };
    ([OutputLo] (OutputLo $bit:literal $width:literal) $($rows:tt)*) => { $crate::Field::<$bit, $width> };
    ([OutPtr] (OutPtr $bit:literal $width:literal) $($rows:tt)*) => { $crate::Field::<$bit, $width> };
    ([OutLen] (OutLen $bit:literal $width:literal) $($rows:tt)*) => { $crate::Field::<$bit, $width> };
    ([Token] (Token $bit:literal $width:literal) $($rows:tt)*) => { $crate::Field::<$bit, $width> };
    ([StatusOwn] (StatusOwn $bit:literal $width:literal) $($rows:tt)*) => { $crate::Field::<$bit, $width> };
    ([Next] (Next $bit:literal $width:literal) $($rows:tt)*) => { $crate::Field::<$bit, $width> };
    ([Number] (Number $bit:literal $width:literal) $($rows:tt)*) => { $crate::Field::<$bit, $width> };
    ([CtrlSignature] (CtrlSignature $bit:literal $width:literal) $($rows:tt)*) => { $crate::Field::<$bit, $width> };
    ([CqeSz] (CqeSz $bit:literal $width:literal) $($rows:tt)*) => { $crate::Field::<$bit, $width> };
    ([LogCqSize] (LogCqSize $bit:literal $width:literal) $($rows:tt)*) => { $crate::Field::<$bit, $width> };
    ([UarPage] (UarPage $bit:literal $width:literal) $($rows:tt)*) => { $crate::Field::<$bit, $width> };
    ([CEqn] (CEqn $bit:literal $width:literal) $($rows:tt)*) => { $crate::Field::<$bit, $width> };
    ([DbrAddr] (DbrAddr $bit:literal $width:literal) $($rows:tt)*) => { $crate::Field::<$bit, $width> };
    ([A] (A $bit:literal $width:literal) $($rows:tt)*) => { $crate::Field::<$bit, $width> };
    ([Rw] (Rw $bit:literal $width:literal) $($rows:tt)*) => { $crate::Field::<$bit, $width> };
    ([Rr] (Rr $bit:literal $width:literal) $($rows:tt)*) => { $crate::Field::<$bit, $width> };
    ([Lw] (Lw $bit:literal $width:literal) $($rows:tt)*) => { $crate::Field::<$bit, $width> };
    ([Lr] (Lr $bit:literal $width:literal) $($rows:tt)*) => { $crate::Field::<$bit, $width> };
    ([Mkey7To0] (Mkey7To0 $bit:literal $width:literal) $($rows:tt)*) => { $crate::Field::<$bit, $width> };
    ([Pd] (Pd $bit:literal $width:literal) $($rows:tt)*) => { $crate::Field::<$bit, $width> };
    ([StartAddr] (StartAddr $bit:literal $width:literal) $($rows:tt)*) => { $crate::Field::<$bit, $width> };
    ([Len] (Len $bit:literal $width:literal) $($rows:tt)*) => { $crate::Field::<$bit, $width> };
    ([Log] (Log $bit:literal $width:literal) $($rows:tt)*) => { $crate::Field::<$bit, $width> };
    ([Uar] (Uar $bit:literal $width:literal) $($rows:tt)*) => { $crate::Field::<$bit, $width> };
    ([Segments] (Segments $bit:literal $width:literal) $($rows:tt)*) => { $crate::Field::<$bit, $width> };
    ([SendCq] (SendCq $bit:literal $width:literal) $($rows:tt)*) => { $crate::Field::<$bit, $width> };
    ([RecvCq] (RecvCq $bit:literal $width:literal) $($rows:tt)*) => { $crate::Field::<$bit, $width> };
    ([SendLog] (SendLog $bit:literal $width:literal) $($rows:tt)*) => { $crate::Field::<$bit, $width> };
    ([RecvLog] (RecvLog $bit:literal $width:literal) $($rows:tt)*) => { $crate::Field::<$bit, $width> };
    ([Srq] (Srq $bit:literal $width:literal) $($rows:tt)*) => { $crate::Field::<$bit, $width> };
    ([$name:ident] $row:tt $($rows:tt)+) => { $crate::field_of!([$name] $($rows)+) };
}

/// The byte in which the row with a name begins.
#[macro_export]
macro_rules! byte_of {
    ([FlagsRqpn] (FlagsRqpn $bit:literal $width:literal) $($rows:tt)*) => { $bit / 8 };
    ([SrqnUidx] (SrqnUidx $bit:literal $width:literal) $($rows:tt)*) => { $bit / 8 };
    ([ImmInvalPkey] (ImmInvalPkey $bit:literal $width:literal) $($rows:tt)*) => { $bit / 8 };
    ([ByteCnt] (ByteCnt $bit:literal $width:literal) $($rows:tt)*) => { $bit / 8 };
    ([Timestamp] (Timestamp $bit:literal $width:literal) $($rows:tt)*) => { $bit / 8 };
    ([Sop] (Sop $bit:literal $width:literal) $($rows:tt)*) => { $bit / 8 };
    ([Qpn] (Qpn $bit:literal $width:literal) $($rows:tt)*) => { $bit / 8 };
    ([WqeCounter] (WqeCounter $bit:literal $width:literal) $($rows:tt)*) => { $bit / 8 };
    ([Signature] (Signature $bit:literal $width:literal) $($rows:tt)*) => { $bit / 8 };
    ([Opcode] (Opcode $bit:literal $width:literal) $($rows:tt)*) => { $bit / 8 };
    ([Format] (Format $bit:literal $width:literal) $($rows:tt)*) => { $bit / 8 };
    ([Solicited] (Solicited $bit:literal $width:literal) $($rows:tt)*) => { $bit / 8 };
    ([Owner] (Owner $bit:literal $width:literal) $($rows:tt)*) => { $bit / 8 };
    ([VendorSyndrome] (VendorSyndrome $bit:literal $width:literal) $($rows:tt)*) => { $bit / 8 };
    ([Syndrome] (Syndrome $bit:literal $width:literal) $($rows:tt)*) => { $bit / 8 };
    ([TypeByte] (TypeByte $bit:literal $width:literal) $($rows:tt)*) => { $bit / 8 };
    ([SubType] (SubType $bit:literal $width:literal) $($rows:tt)*) => { $bit / 8 };
    ([Cqn] (Cqn $bit:literal $width:literal) $($rows:tt)*) => { $bit / 8 };
    ([Opmod] (Opmod $bit:literal $width:literal) $($rows:tt)*) => { $bit / 8 };
    ([Index] (Index $bit:literal $width:literal) $($rows:tt)*) => { $bit / 8 };
    ([Ds] (Ds $bit:literal $width:literal) $($rows:tt)*) => { $bit / 8 };
    ([Flags] (Flags $bit:literal $width:literal) $($rows:tt)*) => { $bit / 8 };
    ([Imm] (Imm $bit:literal $width:literal) $($rows:tt)*) => { $bit / 8 };
    ([Addr] (Addr $bit:literal $width:literal) $($rows:tt)*) => { $bit / 8 };
    ([Rkey] (Rkey $bit:literal $width:literal) $($rows:tt)*) => { $bit / 8 };
    ([SwapOrAdd] (SwapOrAdd $bit:literal $width:literal) $($rows:tt)*) => { $bit / 8 };
    ([Compare] (Compare $bit:literal $width:literal) $($rows:tt)*) => { $bit / 8 };
    ([ByteCount] (ByteCount $bit:literal $width:literal) $($rows:tt)*) => { $bit / 8 };
    ([Lkey] (Lkey $bit:literal $width:literal) $($rows:tt)*) => { $bit / 8 };
    ([Inline] (Inline $bit:literal $width:literal) $($rows:tt)*) => { $bit / 8 };
    ([NextWqeIndex] (NextWqeIndex $bit:literal $width:literal) $($rows:tt)*) => { $bit / 8 };
    ([InLen] (InLen $bit:literal $width:literal) $($rows:tt)*) => { $bit / 8 };
    ([InPtr] (InPtr $bit:literal $width:literal) $($rows:tt)*) => { $bit / 8 };
    ([InputHi] (InputHi $bit:literal $width:literal) $($rows:tt)*) => { $bit / 8 };
    ([InputLo] (InputLo $bit:literal $width:literal) $($rows:tt)*) => { $bit / 8 };
    ([OutputHi] (OutputHi $bit:literal $width:literal) $($rows:tt)*) => { $bit / 8 };
    ([OutputLo] (OutputLo $bit:literal $width:literal) $($rows:tt)*) => { $bit / 8 };
    ([OutPtr] (OutPtr $bit:literal $width:literal) $($rows:tt)*) => { $bit / 8 };
    ([OutLen] (OutLen $bit:literal $width:literal) $($rows:tt)*) => { $bit / 8 };
    ([Token] (Token $bit:literal $width:literal) $($rows:tt)*) => { $bit / 8 };
    ([StatusOwn] (StatusOwn $bit:literal $width:literal) $($rows:tt)*) => { $bit / 8 };
    ([Next] (Next $bit:literal $width:literal) $($rows:tt)*) => { $bit / 8 };
    ([Number] (Number $bit:literal $width:literal) $($rows:tt)*) => { $bit / 8 };
    ([CtrlSignature] (CtrlSignature $bit:literal $width:literal) $($rows:tt)*) => { $bit / 8 };
    ([CqeSz] (CqeSz $bit:literal $width:literal) $($rows:tt)*) => { $bit / 8 };
    ([LogCqSize] (LogCqSize $bit:literal $width:literal) $($rows:tt)*) => { $bit / 8 };
    ([UarPage] (UarPage $bit:literal $width:literal) $($rows:tt)*) => { $bit / 8 };
    ([CEqn] (CEqn $bit:literal $width:literal) $($rows:tt)*) => { $bit / 8 };
    ([DbrAddr] (DbrAddr $bit:literal $width:literal) $($rows:tt)*) => { $bit / 8 };
    ([A] (A $bit:literal $width:literal) $($rows:tt)*) => { $bit / 8 };
    ([Rw] (Rw $bit:literal $width:literal) $($rows:tt)*) => { $bit / 8 };
    ([Rr] (Rr $bit:literal $width:literal) $($rows:tt)*) => { $bit / 8 };
    ([Lw] (Lw $bit:literal $width:literal) $($rows:tt)*) => { $bit / 8 };
    ([Lr] (Lr $bit:literal $width:literal) $($rows:tt)*) => { $bit / 8 };
    ([Mkey7To0] (Mkey7To0 $bit:literal $width:literal) $($rows:tt)*) => { $bit / 8 };
    ([Pd] (Pd $bit:literal $width:literal) $($rows:tt)*) => { $bit / 8 };
    ([StartAddr] (StartAddr $bit:literal $width:literal) $($rows:tt)*) => { $bit / 8 };
    ([Len] (Len $bit:literal $width:literal) $($rows:tt)*) => { $bit / 8 };
    ([Log] (Log $bit:literal $width:literal) $($rows:tt)*) => { $bit / 8 };
    ([Uar] (Uar $bit:literal $width:literal) $($rows:tt)*) => { $bit / 8 };
    ([Segments] (Segments $bit:literal $width:literal) $($rows:tt)*) => { $bit / 8 };
    ([SendCq] (SendCq $bit:literal $width:literal) $($rows:tt)*) => { $bit / 8 };
    ([RecvCq] (RecvCq $bit:literal $width:literal) $($rows:tt)*) => { $bit / 8 };
    ([SendLog] (SendLog $bit:literal $width:literal) $($rows:tt)*) => { $bit / 8 };
    ([RecvLog] (RecvLog $bit:literal $width:literal) $($rows:tt)*) => { $bit / 8 };
    ([Srq] (Srq $bit:literal $width:literal) $($rows:tt)*) => { $bit / 8 };
    ([$name:ident] $row:tt $($rows:tt)+) => { $crate::byte_of!([$name] $($rows)+) };
}
