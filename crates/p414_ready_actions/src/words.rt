// The primitives by their names.
ghost use Rattle.std.specs.Prelude.{◌≡◌};
ghost use Rattle.p414_ready_actions.specs.Words.{asking_word, moving_word, storing_word, word_of, writing_word};

const MODIFY_FIELD: &[u8] = b"modify_field";

const ADD: &[u8] = b"add";

const SUBTRACT: &[u8] = b"subtract";

const ADD_TO_FIELD: &[u8] = b"add_to_field";

const SUBTRACT_FROM_FIELD: &[u8] = b"subtract_from_field";

const BIT_AND: &[u8] = b"bit_and";

const BIT_OR: &[u8] = b"bit_or";

const BIT_XOR: &[u8] = b"bit_xor";

const SHIFT_LEFT: &[u8] = b"shift_left";

const SHIFT_RIGHT: &[u8] = b"shift_right";

const ADD_HEADER: &[u8] = b"add_header";

const REMOVE_HEADER: &[u8] = b"remove_header";

const COPY_HEADER: &[u8] = b"copy_header";

const PUSH: &[u8] = b"push";

const POP: &[u8] = b"pop";

const COUNT: &[u8] = b"count";

const REGISTER_READ: &[u8] = b"register_read";

const REGISTER_WRITE: &[u8] = b"register_write";

const EXECUTE_METER: &[u8] = b"execute_meter";

const HASH: &[u8] = b"modify_field_with_hash_based_offset";

const DROP: &[u8] = b"drop";

const RESUBMIT: &[u8] = b"resubmit";

const RECIRCULATE: &[u8] = b"recirculate";

const CLONE_INGRESS_PKT_TO_EGRESS: &[u8] = b"clone_ingress_pkt_to_egress";

const CLONE_I2E: &[u8] = b"clone_i2e";

const CLONE_EGRESS_PKT_TO_EGRESS: &[u8] = b"clone_egress_pkt_to_egress";

const CLONE_E2E: &[u8] = b"clone_e2e";

/// A primitive (P4_14 1.0.5, "Primitive Actions").
#[derive(Clone, Copy, Drop)]
pub enum PrimitiveWord {
    /// `modify_field`.
    ModifyField,
    /// `add`.
    Add,
    /// `subtract`.
    Subtract,
    /// `add_to_field`.
    AddToField,
    /// `subtract_from_field`.
    SubtractFromField,
    /// `bit_and`.
    BitAnd,
    /// `bit_or`.
    BitOr,
    /// `bit_xor`.
    BitXor,
    /// `shift_left`.
    ShiftLeft,
    /// `shift_right`.
    ShiftRight,
    /// `add_header`.
    AddHeader,
    /// `remove_header`.
    RemoveHeader,
    /// `copy_header`.
    CopyHeader,
    /// `push`.
    Push,
    /// `pop`.
    Pop,
    /// `count`.
    Count,
    /// `register_read`.
    RegisterRead,
    /// `register_write`.
    RegisterWrite,
    /// `execute_meter`.
    ExecuteMeter,
    /// `modify_field_with_hash_based_offset`.
    Hash,
    /// `drop`.
    Drops,
    /// `resubmit`.
    Resubmits,
    /// `recirculate`.
    Recirculates,
    /// `clone_ingress_pkt_to_egress` and `clone_i2e`.
    ClonesIngress,
    /// `clone_egress_pkt_to_egress` and `clone_e2e`.
    ClonesEgress,
    /// `no_op`, and what is left out.
    NoOp,
}

/// How two sources are joined.
#[derive(Clone, Copy, Drop)]
pub enum Join {
    /// The first on the bits of the second.
    OnMask,
    /// Their sum.
    Sum,
    /// Their difference.
    Difference,
    /// The bits that both have.
    And,
    /// The bits that one of them has or both have.
    Or,
    /// The bits that one of them has and the other hasn't.
    Xor,
    /// The first moved up by the second.
    LeftShift,
    /// The first moved down by the second.
    RightShift,
}

/// The primitives that write fields; another one where it is none of them.
fn writing_word(name: &[u8], other: PrimitiveWord) -> PrimitiveWord
    ensures { result ≡ writing_word name.now other }
{
    if name == MODIFY_FIELD {
        PrimitiveWord::ModifyField
    } else if name == ADD {
        PrimitiveWord::Add
    } else if name == SUBTRACT {
        PrimitiveWord::Subtract
    } else if name == ADD_TO_FIELD {
        PrimitiveWord::AddToField
    } else if name == SUBTRACT_FROM_FIELD {
        PrimitiveWord::SubtractFromField
    } else if name == BIT_AND {
        PrimitiveWord::BitAnd
    } else if name == BIT_OR {
        PrimitiveWord::BitOr
    } else if name == BIT_XOR {
        PrimitiveWord::BitXor
    } else if name == SHIFT_LEFT {
        PrimitiveWord::ShiftLeft
    } else if name == SHIFT_RIGHT {
        PrimitiveWord::ShiftRight
    } else {
        other
    }
}

/// The primitives on headers and stacks; another one where it is none of them.
fn moving_word(name: &[u8], other: PrimitiveWord) -> PrimitiveWord
    ensures { result ≡ moving_word name.now other }
{
    if name == ADD_HEADER {
        PrimitiveWord::AddHeader
    } else if name == REMOVE_HEADER {
        PrimitiveWord::RemoveHeader
    } else if name == COPY_HEADER {
        PrimitiveWord::CopyHeader
    } else if name == PUSH {
        PrimitiveWord::Push
    } else if name == POP {
        PrimitiveWord::Pop
    } else {
        other
    }
}

/// The primitives on stateful objects; another one where it is none of them.
fn storing_word(name: &[u8], other: PrimitiveWord) -> PrimitiveWord
    ensures { result ≡ storing_word name.now other }
{
    if name == COUNT {
        PrimitiveWord::Count
    } else if name == REGISTER_READ {
        PrimitiveWord::RegisterRead
    } else if name == REGISTER_WRITE {
        PrimitiveWord::RegisterWrite
    } else if name == EXECUTE_METER {
        PrimitiveWord::ExecuteMeter
    } else if name == HASH {
        PrimitiveWord::Hash
    } else {
        other
    }
}

/// All others; another one where it is none of them.
fn asking_word(name: &[u8], other: PrimitiveWord) -> PrimitiveWord
    ensures { result ≡ asking_word name.now other }
{
    if name == DROP {
        PrimitiveWord::Drops
    } else if name == RESUBMIT {
        PrimitiveWord::Resubmits
    } else if name == RECIRCULATE {
        PrimitiveWord::Recirculates
    } else if name == CLONE_INGRESS_PKT_TO_EGRESS {
        PrimitiveWord::ClonesIngress
    } else if name == CLONE_I2E {
        PrimitiveWord::ClonesIngress
    } else if name == CLONE_EGRESS_PKT_TO_EGRESS {
        PrimitiveWord::ClonesEgress
    } else if name == CLONE_E2E {
        PrimitiveWord::ClonesEgress
    } else {
        other
    }
}

/// The primitive with a name; `no_op` where none that does something has it.
pub fn word_of(name: &[u8]) -> PrimitiveWord
    ensures { result ≡ word_of name.now }
{
    let asking = asking_word(name, PrimitiveWord::NoOp);
    let storing = storing_word(name, asking);
    let moving = moving_word(name, storing);
    writing_word(name, moving)
}
