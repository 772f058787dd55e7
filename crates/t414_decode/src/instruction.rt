//! What an instruction byte and an operand ask for.

/// What the high nibble of an instruction byte asks for.
///
/// Source: Transputer instruction set handbook, direct functions.
#[derive(Clone, Copy)]
pub enum Function {
    /// j, 0
    Jump,
    /// ldlp, 1
    LoadLocalPointer,
    /// pfix, 2
    Prefix,
    /// ldnl, 3
    LoadNonLocal,
    /// ldc, 4
    LoadConstant,
    /// ldnlp, 5
    LoadNonLocalPointer,
    /// nfix, 6
    NegativePrefix,
    /// ldl, 7
    LoadLocal,
    /// adc, 8
    AddConstant,
    /// call, 9
    Call,
    /// cj, A
    ConditionalJump,
    /// ajw, B
    AdjustWorkspace,
    /// eqc, C
    EqualsConstant,
    /// stl, D
    StoreLocal,
    /// stnl, E
    StoreNonLocal,
    /// opr, F
    Operate,
}

/// What `Operate` does with an operand that is a known code.
///
/// Source: Transputer instruction set handbook, operations.
#[derive(Clone, Copy)]
pub enum Operation {
    /// Names no channel.
    Plain(PlainOperation),
    /// Names a channel, which may belong to a link.
    Channel(ChannelOperation),
}

/// An operation on registers and memory alone.
///
/// Source: Transputer instruction set handbook, operations.
#[derive(Clone, Copy)]
pub enum PlainOperation {
    /// rev, 00
    Reverse,
    /// lb, 01
    LoadByte,
    /// bsub, 02
    ByteSubscript,
    /// endp, 03
    EndProcess,
    /// diff, 04
    Difference,
    /// add, 05
    Add,
    /// gcall, 06
    GeneralCall,
    /// prod, 08
    Product,
    /// gt, 09
    GreaterThan,
    /// wsub, 0A
    WordSubscript,
    /// sub, 0C
    Subtract,
    /// startp, 0D
    StartProcess,
    /// seterr, 10
    SetError,
    /// csub0, 13
    CheckSubscriptFromZero,
    /// stopp, 15
    StopProcess,
    /// ladd, 16
    LongAdd,
    /// stlb, 17
    StoreLowBack,
    /// sthf, 18
    StoreHighFront,
    /// norm, 19
    Normalise,
    /// ldiv, 1A
    LongDivide,
    /// ldpi, 1B
    LoadPointerToInstruction,
    /// stlf, 1C
    StoreLowFront,
    /// xdble, 1D
    ExtendToDouble,
    /// ldpri, 1E
    LoadPriority,
    /// rem, 1F
    Remainder,
    /// ret, 20
    Return,
    /// lend, 21
    LoopEnd,
    /// testerr, 29
    TestError,
    /// testpranal, 2A
    TestProcessorAnalysing,
    /// div, 2C
    Divide,
    /// diss, 30
    DisableSkip,
    /// lmul, 31
    LongMultiply,
    /// not, 32
    Not,
    /// xor, 33
    ExclusiveOr,
    /// bcnt, 34
    ByteCount,
    /// lshr, 35
    LongShiftRight,
    /// lshl, 36
    LongShiftLeft,
    /// lsum, 37
    LongSum,
    /// lsub, 38
    LongSubtract,
    /// runp, 39
    RunProcess,
    /// xword, 3A
    ExtendToWord,
    /// sb, 3B
    StoreByte,
    /// gajw, 3C
    GeneralAdjustWorkspace,
    /// savel, 3D
    SaveLow,
    /// saveh, 3E
    SaveHigh,
    /// shr, 40
    ShiftRight,
    /// shl, 41
    ShiftLeft,
    /// mint, 42
    MinimumInteger,
    /// alt, 43
    AltStart,
    /// altwt, 44
    AltWait,
    /// altend, 45
    AltEnd,
    /// and, 46
    And,
    /// enbs, 49
    EnableSkip,
    /// move, 4A
    MoveMessage,
    /// or, 4B
    Or,
    /// csngl, 4C
    CheckSingle,
    /// ccnt1, 4D
    CheckCountFromOne,
    /// ldiff, 4F
    LongDifference,
    /// sthb, 50
    StoreHighBack,
    /// sum, 52
    Sum,
    /// mul, 53
    Multiply,
    /// sttimer, 54
    StoreTimer,
    /// stoperr, 55
    StopOnError,
    /// cword, 56
    CheckWord,
    /// clrhalterr, 57
    ClearHaltOnError,
    /// sethalterr, 58
    SetHaltOnError,
    /// testhalterr, 59
    TestHaltOnError,
}

/// An operation on a channel, which may belong to a link.
///
/// Source: Transputer instruction set handbook, channels.
#[derive(Clone, Copy)]
pub enum ChannelOperation {
    /// in, 07
    InputMessage,
    /// out, 0B
    OutputMessage,
    /// outbyte, 0E
    OutputByte,
    /// outword, 0F
    OutputWord,
    /// resetch, 12
    ResetChannel,
    /// disc, 2F
    DisableChannel,
    /// enbc, 48
    EnableChannel,
}
