//! What an opcode says, by the channel of its flit.

ghost use Rattle.std.specs.Prelude.{◌≡◌};
ghost use Rattle.chi_flits.specs.Opcodes.{gives_dbid, is_atomic, is_cancel, is_comp, is_compare, is_read, is_read_data, is_response, is_retry, is_write, is_write_data, takes_txn, writes_nothing};

/// Whether a request takes a TxnID: each but ReqLCrdReturn, PCrdReturn and PrefetchTgt.
///
/// Source: Arm IHI 0050 Issue B, encodings of the request opcodes.
///
/// ```
/// let takes = takes_txn(0x05); // false: PCrdReturn
/// ```
pub fn takes_txn(opcode: u8) -> bool
    ensures { result ≡ takes_txn opcode }
{
    !matches!(opcode, 0x00 | 0x05 | 0x3a)
}

/// Whether a request, where its operations are not told, leaves memory as it is: ReadShared, ReadClean, ReadOnce, Evict, DVMOp,
/// StashOnceShared, StashOnceUnique, ReadOnceCleanInvalid and ReadNotSharedDirty.
///
/// Source: Arm IHI 0050 Issue B, encodings of the request opcodes.
///
/// ```
/// let keeps = writes_nothing(0x18); // false: WriteUniquePtl
/// ```
pub fn writes_nothing(opcode: u8) -> bool
    ensures { result ≡ writes_nothing opcode }
{
    matches!(
        opcode,
        0x01 | 0x02 | 0x03 | 0x0d | 0x14 | 0x22 | 0x23 | 0x24 | 0x26
    )
}

/// Whether a request is ReadNoSnp.
///
/// Source: Arm IHI 0050 Issue B, encodings of the request opcodes.
///
/// ```
/// let reads = is_read(0x04); // true
/// ```
pub fn is_read(opcode: u8) -> bool
    ensures { result ≡ is_read opcode }
{
    opcode == 0x04
}

/// Whether a request is WriteNoSnpPtl or WriteNoSnpFull.
///
/// Source: Arm IHI 0050 Issue B, encodings of the request opcodes.
///
/// ```
/// let writes = is_write(0x1d); // true: WriteNoSnpFull
/// ```
pub fn is_write(opcode: u8) -> bool
    ensures { result ≡ is_write opcode }
{
    matches!(opcode, 0x1c | 0x1d)
}

/// Whether a request is AtomicStore, AtomicLoad, AtomicSwap or AtomicCompare: these alone have a byte order.
///
/// Source: Arm IHI 0050 Issue B, encodings of the request opcodes.
///
/// ```
/// let has_order = is_atomic(0x30); // true: AtomicLoad.ADD
/// ```
pub fn is_atomic(opcode: u8) -> bool
    ensures { result ≡ is_atomic opcode }
{
    (0x28..=0x39).contains(&opcode)
}

/// Whether a request is AtomicCompare.
pub(crate) fn is_compare(opcode: u8) -> bool
    ensures { result ≡ is_compare opcode }
{
    opcode == 0x39
}

/// Whether a response is RetryAck, Comp, CompDBIDResp or DBIDResp. The others, as ReadReceipt, say nothing that is told.
///
/// Source: Arm IHI 0050 Issue B, encodings of the response opcodes.
///
/// ```
/// let answers = is_response(0x08); // false: ReadReceipt
/// ```
pub fn is_response(opcode: u8) -> bool
    ensures { result ≡ is_response opcode }
{
    (3..=6).contains(&opcode)
}

/// Whether a response is RetryAck.
pub(crate) fn is_retry(opcode: u8) -> bool
    ensures { result ≡ is_retry opcode }
{
    opcode == 3
}

/// Whether a response completes its request: Comp or CompDBIDResp.
///
/// Source: Arm IHI 0050 Issue B, encodings of the response opcodes.
///
/// ```
/// let completes = is_comp(0x05); // true: CompDBIDResp
/// ```
pub fn is_comp(opcode: u8) -> bool
    ensures { result ≡ is_comp opcode }
{
    matches!(opcode, 4 | 5)
}

/// Whether a response gives the DBID by which its request's data are to come: CompDBIDResp or DBIDResp.
///
/// Source: Arm IHI 0050 Issue B, encodings of the response opcodes.
///
/// ```
/// let gives = gives_dbid(0x04); // false: Comp
/// ```
pub fn gives_dbid(opcode: u8) -> bool
    ensures { result ≡ gives_dbid opcode }
{
    matches!(opcode, 5 | 6)
}

/// Whether data from the home are CompData. The others say nothing that is told.
///
/// Source: Arm IHI 0050 Issue B, encodings of the data opcodes.
///
/// ```
/// let answers = is_read_data(0x04); // true
/// ```
pub fn is_read_data(opcode: u8) -> bool
    ensures { result ≡ is_read_data opcode }
{
    opcode == 4
}

/// Whether data to the home are NonCopyBackWrData or WriteDataCancel. The others say nothing that is told.
///
/// Source: Arm IHI 0050 Issue B, encodings of the data opcodes.
///
/// ```
/// let writes = is_write_data(0x02); // false: CopyBackWrData
/// ```
pub fn is_write_data(opcode: u8) -> bool
    ensures { result ≡ is_write_data opcode }
{
    matches!(opcode, 3 | 7)
}

/// Whether data to the home are WriteDataCancel, which are sent in place of a request's data and write nothing.
///
/// Source: Arm IHI 0050 Issue B, encodings of the data opcodes.
///
/// ```
/// let cancels = is_cancel(0x07); // true
/// ```
pub fn is_cancel(opcode: u8) -> bool
    ensures { result ≡ is_cancel opcode }
{
    opcode == 7
}
