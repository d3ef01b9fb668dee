// What is called.
use p416_syntax::Action16;

/// A function of `v1model.p4`.
#[derive(Clone, Copy, Drop)]
pub enum Function {
    /// `mark_to_drop`.
    MarkToDrop,
    /// `hash`.
    Hash,
    /// `verify_checksum`, or the same with payload.
    VerifyChecksum,
    /// `update_checksum`, or the same with payload.
    UpdateChecksum,
    /// `clone_preserving_field_list`.
    Clone,
    /// `resubmit_preserving_field_list`.
    Resubmit,
    /// `recirculate_preserving_field_list`.
    Recirculate,
}

/// A method, but for `lookahead`.
#[derive(Clone, Copy, Drop)]
pub enum Method {
    /// `isValid` of a header.
    IsValid,
    /// `setValid` or `setInvalid` of a header.
    SetValidity,
    /// `push_front` or `pop_front` of a stack.
    Shift,
    /// `count` of a counter.
    Count,
    /// `count` of a direct counter.
    CountEntry,
    /// `read` of a register.
    Read,
    /// `write` of a register.
    Write,
    /// `execute_meter` of a meter.
    ExecuteMeter,
    /// `extract` of a packet that is read.
    Extract,
    /// `emit` of a packet that is written.
    Emit,
    /// `apply` of a table.
    Apply,
}

/// What is called.
#[derive(Clone, Copy, Drop)]
pub enum Callee<'a> {
    /// An action.
    Action(&'a Action16),
    /// A function.
    Function(Function),
    /// A method.
    Method(Method),
    /// What can't be called.
    Nothing,
}
