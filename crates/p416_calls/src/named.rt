// Functions and methods by their names (`core.p4`; `v1model.p4`).
ghost use Rattle.std.specs.Prelude.{◌≡◌};
ghost use Rattle.std.specs.Option.{option_map};
ghost use Rattle.p416_syntax.specs.Calls.{function_signature, method_signature, header_method, stack_method, register_method, object_method};
ghost use Rattle.p416_names.specs.SeenKinds.{seen_kind, seen_object};
ghost use Rattle.p416_calls.specs.Seen.{function_seen, method_seen, only_seen};

use crate::callee::{Function, Method};
use p416_names::{Kind, ObjectKind};

const MARK_TO_DROP: &[u8] = b"mark_to_drop";

const HASH: &[u8] = b"hash";

const VERIFY: &[u8] = b"verify_checksum";

const VERIFY_WITH_PAYLOAD: &[u8] = b"verify_checksum_with_payload";

const UPDATE: &[u8] = b"update_checksum";

const UPDATE_WITH_PAYLOAD: &[u8] = b"update_checksum_with_payload";

const CLONE: &[u8] = b"clone_preserving_field_list";

const RESUBMIT: &[u8] = b"resubmit_preserving_field_list";

const RECIRCULATE: &[u8] = b"recirculate_preserving_field_list";

const IS_VALID: &[u8] = b"isValid";

const SET_VALID: &[u8] = b"setValid";

const SET_INVALID: &[u8] = b"setInvalid";

const PUSH_FRONT: &[u8] = b"push_front";

const POP_FRONT: &[u8] = b"pop_front";

const READ: &[u8] = b"read";

const WRITE: &[u8] = b"write";

const COUNT: &[u8] = b"count";

const EXECUTE_METER: &[u8] = b"execute_meter";

const EXTRACT: &[u8] = b"extract";

const EMIT: &[u8] = b"emit";

const APPLY: &[u8] = b"apply";

/// The function of `v1model.p4` with this name.
pub fn function_named(name: &[u8]) -> Option<Function>
    ensures { option_map function_seen result ≡ function_signature name.now }
{
    if name == MARK_TO_DROP {
        Some(Function::MarkToDrop)
    } else if name == HASH {
        Some(Function::Hash)
    } else if name == VERIFY {
        Some(Function::VerifyChecksum)
    } else if name == VERIFY_WITH_PAYLOAD {
        Some(Function::VerifyChecksum)
    } else if name == UPDATE {
        Some(Function::UpdateChecksum)
    } else if name == UPDATE_WITH_PAYLOAD {
        Some(Function::UpdateChecksum)
    } else if name == CLONE {
        Some(Function::Clone)
    } else if name == RESUBMIT {
        Some(Function::Resubmit)
    } else if name == RECIRCULATE {
        Some(Function::Recirculate)
    } else {
        None
    }
}

/// The method of a header with this name.
fn header_method(name: &[u8]) -> Option<Method>
    ensures { option_map method_seen result ≡ header_method name.now }
{
    if name == IS_VALID {
        Some(Method::IsValid)
    } else if name == SET_VALID {
        Some(Method::SetValidity)
    } else if name == SET_INVALID {
        Some(Method::SetValidity)
    } else {
        None
    }
}

/// The method of a stack with this name.
fn stack_method(name: &[u8]) -> Option<Method>
    ensures { option_map method_seen result ≡ stack_method name.now }
{
    if name == PUSH_FRONT {
        Some(Method::Shift)
    } else if name == POP_FRONT {
        Some(Method::Shift)
    } else {
        None
    }
}

/// The method of a register with this name.
fn register_method(name: &[u8]) -> Option<Method>
    ensures { option_map method_seen result ≡ register_method name.now }
{
    if name == READ {
        Some(Method::Read)
    } else if name == WRITE {
        Some(Method::Write)
    } else {
        None
    }
}

/// The one method that there is, where it has this name.
fn only_method(called: &[u8], method: Method, name: &[u8]) -> Option<Method>
    ensures { option_map method_seen result ≡ only_seen called.now method name.now }
{
    if name == called { Some(method) } else { None }
}

/// The method of a stateful object with this name.
fn object_method(of: ObjectKind, name: &[u8]) -> Option<Method>
    ensures { option_map method_seen result ≡ object_method (seen_object of) name.now }
{
    match of {
        ObjectKind::Counter => only_method(COUNT, Method::Count, name),
        ObjectKind::DirectCounter => only_method(COUNT, Method::CountEntry, name),
        ObjectKind::Register => register_method(name),
        ObjectKind::Meter => only_method(EXECUTE_METER, Method::ExecuteMeter, name),
    }
}

/// The method with this name of what stands before it, but for `lookahead`.
pub fn method_named(of: Kind<'_>, name: &[u8]) -> Option<Method>
    ensures { option_map method_seen result ≡ method_signature (seen_kind of.entry) name.now }
{
    match of {
        Kind::Header(_) => header_method(name),
        Kind::Stack(_, _) => stack_method(name),
        Kind::PacketIn => only_method(EXTRACT, Method::Extract, name),
        Kind::PacketOut => only_method(EMIT, Method::Emit, name),
        Kind::Table => only_method(APPLY, Method::Apply, name),
        Kind::Object(of) => object_method(of, name),
        _ => None,
    }
}
