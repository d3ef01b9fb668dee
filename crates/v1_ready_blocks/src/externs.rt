// Externs of `v1model.p4` with their objects, their targets and what is written in the program.
use crate::places::Target;
use fabric::RequestKind;
use p416_syntax::HashAlgorithm;

/// An extern of which only single values are still to be evaluated. Objects are named by their numbers in the signature.
#[derive(Clone, Copy, Drop)]
pub enum Extern {
    /// `c.count(i)`: the counter, and the slot of `packet_length`. Its value is the index.
    Count(u32, u32),
    /// `d.count()`: the direct counter, and the slot of `packet_length`. It has no values.
    CountEntry(u32, u32),
    /// `r.read(v, i)`: the register and the target. Its value is the index.
    Read(u32, Target),
    /// `r.write(i, v)`: the register. Its values are the index and the number.
    Write(u32),
    /// `m.execute_meter(i, v)`: the meter and the target. Its value is the index.
    ExecuteMeter(u32, Target),
    /// `hash(r, algorithm, base, { .. }, bound)`. Its values are the base and the bound, and it has items.
    Hash(HashAlgorithm, Target),
    /// `mark_to_drop(sm)`: the slot of `egress_spec`. It has no values.
    MarkToDrop(u32),
    /// `verify_checksum(condition, { .. }, field, algorithm)`, and whether the octets that weren't parsed follow the list;
    /// the slot of `checksum_error`. Its values are the condition and the field, and it has items.
    Verify(HashAlgorithm, bool, u32),
    /// `update_checksum(condition, { .. }, field, algorithm)`, and whether the octets that weren't parsed follow the list.
    /// Its value is the condition, and it has items.
    Update(HashAlgorithm, bool, Target),
    /// `clone_preserving_field_list(CloneType.X, session, list)`, with the kind of clone and the list. Its value is the
    /// session.
    Clone(RequestKind, u8),
    /// `resubmit_preserving_field_list(list)` and `recirculate_preserving_field_list(list)`. It has no values.
    Request(RequestKind, u8),
}
