// What calls want for their arguments and give (P4_16 1.2, "Function calls and method invocations"; `core.p4`; `v1model.p4`).
ghost use Rattle.std.specs.Prelude.{◌≡◌, List, map, length, get_or};
ghost use Rattle.p416_syntax.specs.Scopes.{Known, handed};
ghost use Rattle.p416_syntax.specs.Declarations.{top_names};
ghost use Rattle.p416_syntax.specs.Expressions.{call_kind};
ghost use Rattle.p416_syntax.specs.Uses.{wanted_by};
ghost use Rattle.p416_syntax.specs.Calls as rules;
ghost use Rattle.p416_names.specs.SeenKinds.{seen_kind};
ghost use Rattle.p416_calls.specs.Seen.{seen_place, seen_callee, function_seen, method_seen, writes_owner};

use crate::callee::{Callee, Function, Method};
use crate::place::{Place, place_at};
use p416_names::{Enumeration, Kind, Top};
use p416_syntax::{Action16, Direction, Param};

const STANDARD_METADATA: &[u8] = b"standard_metadata_t";

static MARK_TO_DROP: [Place<'static>; 1] = [Place::Written(Kind::Struct(STANDARD_METADATA))];

static HASH: [Place<'static>; 5] = [
    Place::WrittenBits,
    Place::MemberOf(Enumeration::HashAlgorithm),
    Place::AnyBits,
    Place::ItemList,
    Place::AnyBits,
];

static VERIFY_CHECKSUM: [Place<'static>; 4] = [
    Place::Value(Kind::Boolean),
    Place::ItemList,
    Place::AnyBits,
    Place::MemberOf(Enumeration::HashAlgorithm),
];

static UPDATE_CHECKSUM: [Place<'static>; 4] = [
    Place::Value(Kind::Boolean),
    Place::ItemList,
    Place::WrittenBits,
    Place::MemberOf(Enumeration::HashAlgorithm),
];

static CLONE: [Place<'static>; 3] = [
    Place::MemberOf(Enumeration::CloneType),
    Place::Value(Kind::Bits(32)),
    Place::LiteralOf(Kind::Bits(8)),
];

static LIST_NUMBER: [Place<'static>; 1] = [Place::LiteralOf(Kind::Bits(8))];

static SHIFT: [Place<'static>; 1] = [Place::LiteralOf(Kind::Bits(32))];

static INDEX: [Place<'static>; 1] = [Place::Value(Kind::Bits(32))];

static READ: [Place<'static>; 2] = [Place::WrittenBits, Place::Value(Kind::Bits(32))];

static WRITE: [Place<'static>; 2] = [Place::Value(Kind::Bits(32)), Place::AnyBits];

static EXECUTE_METER: [Place<'static>; 2] = [Place::Value(Kind::Bits(32)), Place::WrittenBits];

static EXTRACT: [Place<'static>; 1] = [Place::WrittenHeader];

static EMIT: [Place<'static>; 1] = [Place::Emitted];

/// What a function wants.
fn function_places(function: Function) -> &'static [Place<'static>]
    ensures { map seen_place result.now ≡ (function_seen function).wanted }
{
    match function {
        Function::MarkToDrop => &MARK_TO_DROP,
        Function::Hash => &HASH,
        Function::VerifyChecksum => &VERIFY_CHECKSUM,
        Function::UpdateChecksum => &UPDATE_CHECKSUM,
        Function::Clone => &CLONE,
        Function::Resubmit => &LIST_NUMBER,
        Function::Recirculate => &LIST_NUMBER,
    }
}

/// What a method wants.
fn method_places(method: Method) -> &'static [Place<'static>]
    ensures { map seen_place result.now ≡ (method_seen method).wanted }
{
    match method {
        Method::IsValid => &[],
        Method::SetValidity => &[],
        Method::Shift => &SHIFT,
        Method::Count => &INDEX,
        Method::CountEntry => &[],
        Method::Read => &READ,
        Method::Write => &WRITE,
        Method::ExecuteMeter => &EXECUTE_METER,
        Method::Extract => &EXTRACT,
        Method::Emit => &EMIT,
        Method::Apply => &[],
    }
}

/// What a parameter of an action wants.
fn parameter_place<'a>(top: &Top<'a>, parameter: &Param) -> Place<'a>
    ensures { seen_place result ≡ rules.place_of (handed (top_names top.now) parameter.now) }
{
    let kind = top.kind_of_type(&parameter.of);
    match parameter.direction {
        Some(Direction::Out) => Place::Written(kind),
        Some(Direction::InOut) => Place::Written(kind),
        Some(Direction::In) => Place::Value(kind),
        None => Place::Value(kind),
    }
}

/// What the parameter of an action with this number wants; nothing is asked behind the last one.
#[tactic(auto, using(crate::proofs::Places::parameter_there, crate::proofs::Places::parameter_past))]
fn action_place<'a>(top: &Top<'a>, action: &Action16, number: usize) -> Place<'a>
    ensures { seen_place result ≡ get_or (map rules.place_of (map (handed (top_names top.now)) action.now.parameters)) number rules.unasked }
{
    match action.parameters.get(number) {
        Some(parameter) => parameter_place(top, parameter),
        None => Place::Unasked,
    }
}

/// The place with this number, of these.
fn listed_place<'a>(places: &[Place<'a>], number: usize) -> Place<'a>
    ensures { seen_place result ≡ get_or (map seen_place places.now) number rules.unasked }
{
    place_at(places, number)
}

/// What a method gives.
fn method_gives<'a>(method: Method) -> Kind<'a>
    ensures { seen_kind result ≡ (method_seen method).gives }
{
    match method {
        Method::IsValid => Kind::Boolean,
        Method::Apply => Kind::Applied,
        _ => Kind::Nothing,
    }
}

impl<'a> Callee<'a> {
    /// What the parameter with this number wants; nothing is asked behind the last one, nor of what can't be called.
    pub fn place(self, top: &Top<'a>, number: usize) -> Place<'a>
        ensures { seen_place result ≡ get_or (wanted_by (seen_callee (top_names top.now) self.entry)) number rules.unasked }
    {
        match self {
            Callee::Action(action) => action_place(top, action, number),
            Callee::Function(function) => listed_place(function_places(function), number),
            Callee::Method(method) => listed_place(method_places(method), number),
            Callee::Nothing => Place::Unasked,
        }
    }

    /// How many arguments are wanted; none of what can't be called.
    pub fn count(self) -> usize
        ensures { (top : List Known) → result ≡ length (wanted_by (seen_callee top self.entry)) }
    {
        match self {
            Callee::Action(action) => action.parameters.len(),
            Callee::Function(function) => function_places(function).len(),
            Callee::Method(method) => method_places(method).len(),
            Callee::Nothing => 0,
        }
    }

    /// What the call gives; unknown of what can't be called.
    pub fn gives(self) -> Kind<'a>
        ensures { (top : List Known) → seen_kind result ≡ call_kind (seen_callee top self.entry) }
    {
        match self {
            Callee::Action(_) => Kind::Nothing,
            Callee::Function(_) => Kind::Nothing,
            Callee::Method(method) => method_gives(method),
            Callee::Nothing => Kind::Unknown,
        }
    }

    /// Whether the call writes what stands before the method.
    pub fn writes_owner(self) -> bool
        ensures { (top : List Known) → result ≡ writes_owner (seen_callee top self.entry) }
    {
        matches!(self, Callee::Method(Method::SetValidity | Method::Shift))
    }
}
