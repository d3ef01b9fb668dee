// Where calls may stand, and `next` and `last` of a stack (`core.p4`; `v1model.p4`; P4_16 1.2, "Header stacks").
ghost use Rattle.std.specs.Prelude.{◌≡◌, List, option_to_list};
ghost use Rattle.p416_syntax.specs.Scopes.{Known};
ghost use Rattle.p416_syntax.specs.Applications.{applies_nothing};
ghost use Rattle.p416_syntax.specs.Externs as rules;
ghost use Rattle.p416_names.specs.SeenKinds.{seen_kind};
ghost use Rattle.p416_calls.specs.Seen.{seen_callee, function_seen, method_seen};
ghost use Rattle.p416_scopes.specs.Seen.{seen_part};
ghost use Rattle.p416_expression_check.specs.Stands.{seen_stand};
ghost use Rattle.p416_expression_check.specs.internal.Broken.{all_allowed, may_stand_by, stands_elsewhere_by, outside_parser_by, misplaced_by};

use p416_calls::{Callee, Function, Method};
use p416_names::{Kind, is_among};
use p416_scopes::Part;
use p416_syntax::{ExpHead, ExpView};

/// Where a call may stand.
#[derive(Clone, Copy, Drop)]
enum Stand {
    /// Anywhere.
    Anywhere,
    /// In a block at these places of `main`.
    AtPositions(&'static [usize]),
    /// In an action of a block that stands in `main`.
    InActions,
    /// In a block at the place that the member of `CloneType` says.
    ByCloneType,
}

static IN_PARSER: [usize; 1] = [0];

static IN_VERIFY: [usize; 1] = [1];

static IN_INGRESS: [usize; 1] = [2];

static IN_EGRESS: [usize; 1] = [3];

static IN_PIPELINES: [usize; 2] = [2, 3];

static IN_COMPUTE: [usize; 1] = [4];

static IN_DEPARSER: [usize; 1] = [5];

const PLACE_WORDS: [&[u8]; 2] = [b"next", b"last"];

/// Where a call of a function may stand.
fn function_stand(function: Function) -> Stand
    ensures { seen_stand result ≡ (function_seen function).stands }
{
    match function {
        Function::MarkToDrop => Stand::AtPositions(&IN_PIPELINES),
        Function::Hash => Stand::AtPositions(&IN_PIPELINES),
        Function::VerifyChecksum => Stand::AtPositions(&IN_VERIFY),
        Function::UpdateChecksum => Stand::AtPositions(&IN_COMPUTE),
        Function::Clone => Stand::ByCloneType,
        Function::Resubmit => Stand::AtPositions(&IN_INGRESS),
        Function::Recirculate => Stand::AtPositions(&IN_EGRESS),
    }
}

/// Where a call of a method may stand.
fn method_stand(method: Method) -> Stand
    ensures { seen_stand result ≡ (method_seen method).stands }
{
    match method {
        Method::IsValid => Stand::Anywhere,
        Method::SetValidity => Stand::Anywhere,
        Method::Shift => Stand::Anywhere,
        Method::Count => Stand::AtPositions(&IN_PIPELINES),
        Method::CountEntry => Stand::InActions,
        Method::Read => Stand::AtPositions(&IN_PIPELINES),
        Method::Write => Stand::AtPositions(&IN_PIPELINES),
        Method::ExecuteMeter => Stand::AtPositions(&IN_PIPELINES),
        Method::Extract => Stand::AtPositions(&IN_PARSER),
        Method::Emit => Stand::AtPositions(&IN_DEPARSER),
        Method::Apply => Stand::Anywhere,
    }
}

/// Whether a place is among these.
fn is_allowed_at(allowed: &[usize], position: usize) -> bool
    ensures { result ≡ rules.is_allowed_at allowed.now position }
{
    allowed.iter().any(|place| position == *place)
}

/// Whether each of these places is among the allowed ones.
fn are_all_allowed(allowed: &[usize], positions: &[usize]) -> bool
    ensures { result ≡ all_allowed allowed.now positions.now }
{
    for position in positions {
        if !is_allowed_at(allowed, *position) {
            return false;
        }
    }
    true
}

/// Whether a block that stands at these places may make a call that is allowed at those.
fn are_allowed(allowed: &[usize], positions: &[usize]) -> bool
    ensures { result ≡ rules.are_allowed allowed.now positions.now }
{
    !positions.is_empty() && are_all_allowed(allowed, positions)
}

/// Whether a clone may be made in a block that stands at these places, by its first argument.
fn may_clone(first: Option<usize>, positions: &[usize]) -> bool
    ensures { result ≡ rules.are_allowed (option_to_list first) positions.now }
{
    match first {
        Some(place) => are_allowed(&[place], positions),
        None => are_allowed(&[], positions),
    }
}

/// Whether this is a part of an action.
fn is_action_part(part: Part<'_>) -> bool
    ensures { result ≡ rules.is_action_part (seen_part part.entry) }
{
    matches!(part, Part::InAction(_))
}

/// Whether this is a part of a parser.
fn is_parser_part(part: Part<'_>) -> bool
    ensures { result ≡ rules.is_parser_part (seen_part part.entry) }
{
    matches!(part, Part::InParser)
}

/// Whether no table may be applied in a part of a declaration: in an action or a key (T8).
pub fn applies_nothing(part: Part<'_>) -> bool
    ensures { result ≡ applies_nothing (seen_part part.entry) }
{
    match part {
        Part::InAction(_) => true,
        Part::InKey => true,
        _ => false,
    }
}

/// Whether a call may stand in a part of a block that stands at these places.
fn may_stand(stand: Stand, positions: &[usize], part: Part<'_>, first: Option<usize>) -> bool
    ensures { result ≡ may_stand_by positions.now (seen_part part.entry) (option_to_list first) (seen_stand stand) }
{
    match stand {
        Stand::Anywhere => true,
        Stand::AtPositions(allowed) => are_allowed(allowed, positions),
        Stand::InActions => !positions.is_empty() && is_action_part(part),
        Stand::ByCloneType => may_clone(first, positions),
    }
}

/// Whether what is called may not stand in a part of a block that stands at these places.
fn stands_elsewhere(
    called: Callee<'_>,
    positions: &[usize],
    part: Part<'_>,
    first: Option<usize>,
) -> bool
    ensures { (top : List Known) → result ≡ stands_elsewhere_by positions.now (seen_part part.entry) (option_to_list first) (seen_callee top called.entry) }
{
    match called {
        Callee::Action(_) => false,
        Callee::Function(function) => {
            !may_stand(function_stand(function), positions, part, first)
        }
        Callee::Method(method) => !may_stand(method_stand(method), positions, part, first),
        Callee::Nothing => false,
    }
}

/// Whether an element that a parser fills or has filled is named outside parsers.
fn is_outside_parser(of: Kind<'_>, word: &[u8], part: Part<'_>) -> bool
    ensures { result ≡ outside_parser_by (seen_kind of.entry) word.now (seen_part part.entry) }
{
    of.is_stack() && is_among(word, &PLACE_WORDS) && !is_parser_part(part)
}

/// What is known of a call for the question where it may stand.
#[derive(Clone, Copy, Drop)]
pub(crate) struct Standing<'p, 'a> {
    /// The places of the block in `main`.
    pub positions: &'p [usize],
    /// The part of the block.
    pub part: Part<'a>,
    /// What is called.
    pub called: Callee<'a>,
    /// Where a clone is made, by the first argument.
    pub first: Option<usize>,
}

/// Whether an expression stands where it may not, given what its first part is (T10).
pub(crate) fn is_misplaced(view: &ExpView<'_>, left: Kind<'_>, by: Standing<'_, '_>) -> bool
    ensures { (top : List Known) → result ≡ misplaced_by by.entry.positions.now (seen_part by.entry.part) (seen_kind left.entry) (seen_callee top by.entry.called) (option_to_list by.entry.first) view.now }
{
    match view.head() {
        ExpHead::Call(_, _) => stands_elsewhere(by.called, by.positions, by.part, by.first),
        ExpHead::Lookahead(_, _, _) => !are_allowed(&IN_PARSER, by.positions),
        ExpHead::Member(_, word) => is_outside_parser(left, word.as_slice(), by.part),
        _ => false,
    }
}
