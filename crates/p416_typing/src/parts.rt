// What is known of an expression by what is known of its parts.
ghost use Rattle.std.specs.Prelude.{◌≡◌, ◌+◌, ℕ, List, [], ◌∷◌, map, option_to_list, IfOk};
ghost use Rattle.std.specs.Option.{option_map};
ghost use Rattle.p416_syntax.specs.Tree.{literal, name};
ghost use Rattle.p416_syntax.specs.Scopes.{Known, Scope as RuleScope, sort_of};
ghost use Rattle.p416_syntax.specs.Calls.{method_signature};
ghost use Rattle.p416_syntax.specs.Declarations.{top_names, layouts_of};
ghost use Rattle.p416_syntax.specs.Expressions as rules;
ghost use Rattle.p416_names.specs.SeenKinds.{seen_kind};
ghost use Rattle.p416_names.specs.Seen.{seen_sort};
ghost use Rattle.p416_calls.specs.Seen.{seen_callee};
ghost use Rattle.p416_scopes.specs.Seen.{seen_scope};
ghost use Rattle.p416_typing.specs.Rows.{row_of};
ghost use Rattle.p416_typing.specs.Seen.{seen_row};
ghost use Rattle.p416_typing.specs.internal.Steps as steps;

use crate::row::Row;
use p4x_bits::OutOfMemory;
use p416_calls::{Callee, function_named, method_named};
use p416_names::{Kind, Sort, Top, has_member, is_among, is_error_name};
use p416_scopes::Scope;
use p416_syntax::Literal16;
use work_stack::Stack;

const PLACES: [&[u8]; 2] = [b"next", b"last"];

const INGRESS_CLONE: &[u8] = b"I2E";

const MATCHES: [&[u8]; 2] = [b"hit", b"miss"];

/// What is known of something of a kind without parts.
pub fn kind_row<'a>(kind: Kind<'a>) -> Row<'a>
    ensures { (top : List Known) → seen_row top result ≡ steps.kind_row (seen_kind kind.entry) }
{
    Row {
        kind,
        left: Kind::Unknown,
        right: Kind::Unknown,
        callee: Callee::Nothing,
        called: Callee::Nothing,
        count: 0,
        given: 0,
        clone: None,
        first: None,
        given_first: None,
        can_write: false,
    }
}

/// Takes the row of the next part; what is known of nothing where there is none.
pub fn take_row<'a>(values: &mut Stack<Row<'a>>) -> Row<'a>
    ensures row { (top : List Known) → seen_row top result ≡ steps.top_of (map (seen_row top) values.old) }
    ensures rest { (top : List Known) → map (seen_row top) values.new ≡ steps.rest_of (map (seen_row top) values.old) }
{
    match values.pop() {
        Some(row) => row,
        None => kind_row(Kind::Unknown),
    }
}

/// What a number is.
pub fn literal_kind<'a>(number: Literal16) -> Kind<'a>
    ensures { (s : RuleScope) → seen_kind result ≡ rules.kind_of s (literal number) }
{
    match number.width {
        Some(width) => Kind::Bits(u128::from(width)),
        None => Kind::Unsized,
    }
}

/// A kind, where a word is among these.
fn among<'a>(names: &[&[u8]], kind: Kind<'a>, word: &[u8]) -> Option<Kind<'a>>
    ensures { option_map seen_kind result ≡ rules.among_names (map (λ name. name.now) names.now) (seen_kind kind.entry) word.now }
{
    if is_among(word, names) {
        Some(kind)
    } else {
        None
    }
}

/// What the member with this word is of what stands before it.
pub fn member_kind<'a>(top: &Top<'a>, of: Kind<'a>, word: &[u8]) -> Option<Kind<'a>>
    ensures { option_map seen_kind result ≡ rules.member_kind (layouts_of top.now) (seen_kind of.entry) word.now }
{
    match of {
        Kind::Header(name) => top.field(name, word),
        Kind::Struct(name) => top.field(name, word),
        Kind::Stack(name, _) => among(&PLACES, Kind::Header(name), word),
        Kind::Errors if is_error_name(word) => Some(Kind::ErrorCode),
        Kind::Enumeration(of) if has_member(of, word) => Some(Kind::OneOf(of)),
        Kind::Applied => among(&MATCHES, Kind::Boolean, word),
        _ => None,
    }
}

/// What is called by a name of this sort.
fn sort_callee<'a>(sort: Sort<'a>, name: &[u8]) -> Callee<'a>
    ensures { (top : List Known) → seen_callee top result ≡ rules.sort_signature (seen_sort top sort.entry) name.now }
{
    match sort {
        Sort::Action(action) => Callee::Action(action),
        Sort::Function => match function_named(name) {
            Some(function) => Callee::Function(function),
            None => Callee::Nothing,
        },
        _ => Callee::Nothing,
    }
}

/// What a name of this sort is.
fn sort_kind<'a>(sort: Sort<'a>) -> Kind<'a>
    ensures { (top : List Known) → seen_kind result ≡ rules.sort_kind (seen_sort top sort.entry) }
{
    match sort {
        Sort::Value(kind, _) => kind,
        Sort::Enumeration(of) => Kind::Enumeration(of),
        Sort::Object(of) => Kind::Object(of),
        Sort::Table(_) => Kind::Table,
        _ => Kind::Unknown,
    }
}

/// Whether a name of this sort can be written.
fn is_writable(sort: Sort<'_>) -> bool
    ensures { (top : List Known) (s : RuleScope) (text : List ℕ) → sort_of s text ≡ seen_sort top sort.entry → result ≡ rules.can_write s (name text) }
{
    matches!(sort, Sort::Value(_, true))
}

/// What is known of a name.
pub fn name_row<'a>(scope: &Scope<'_, 'a>, text: &[u8]) -> Row<'a>
    ensures { seen_row (top_names scope.now.top.now) result ≡ row_of (seen_scope scope.now) (name text.now) }
{
    let sort = scope.sort_of(text);
    Row {
        kind: sort_kind(sort),
        left: Kind::Unknown,
        right: Kind::Unknown,
        callee: sort_callee(sort, text),
        called: Callee::Nothing,
        count: 0,
        given: 0,
        clone: None,
        first: None,
        given_first: None,
        can_write: is_writable(sort),
    }
}

/// Where a clone is made by the member with this word, by the place in `main`.
fn word_position(word: &[u8]) -> usize
    ensures { result ∷ [] ≡ steps.word_positions word.now }
{
    if word == INGRESS_CLONE { 2 } else { 3 }
}

/// What is known of a member by its word.
pub fn member_row<'a>(scope: &Scope<'_, 'a>, part: Row<'a>, word: &[u8]) -> Row<'a>
    ensures { seen_row (top_names scope.now.top.now) result ≡ steps.member_row (seen_scope scope.now) (seen_row (top_names scope.now.top.now) part.entry) word.now }
{
    Row {
        kind: known_kind(member_kind(scope.top, part.kind, word)),
        left: part.kind,
        right: Kind::Unknown,
        callee: method_callee(part.kind, word),
        called: Callee::Nothing,
        count: 0,
        given: 0,
        clone: Some(word_position(word)),
        first: None,
        given_first: None,
        can_write: part.can_write,
    }
}

/// The method with this name of what stands before it.
fn method_callee<'a>(of: Kind<'a>, word: &[u8]) -> Callee<'a>
    ensures { (top : List Known) → seen_callee top result ≡ method_signature (seen_kind of.entry) word.now }
{
    match method_named(of, word) {
        Some(method) => Callee::Method(method),
        None => Callee::Nothing,
    }
}

/// A kind, where it is known.
fn known_kind<'a>(kind: Option<Kind<'a>>) -> Kind<'a>
    ensures { seen_kind result ≡ rules.known_kind (option_map seen_kind kind.entry) }
{
    match kind {
        Some(kind) => kind,
        None => Kind::Unknown,
    }
}

/// What is known of a part of a value.
pub fn part_row<'a>(kind: Kind<'a>, part: Row<'a>) -> Row<'a>
    ensures { (top : List Known) → seen_row top result ≡ steps.part_row (seen_kind kind.entry) (seen_row top part.entry) }
{
    Row {
        kind,
        left: part.kind,
        right: Kind::Unknown,
        callee: Callee::Nothing,
        called: Callee::Nothing,
        count: 0,
        given: 0,
        clone: None,
        first: None,
        given_first: None,
        can_write: part.can_write,
    }
}

/// What is known of a call, by what is known of what is called and of the argument list.
pub fn call_row<'a>(part: Row<'a>, given: Row<'a>) -> Row<'a>
    ensures { (top : List Known) → seen_row top result ≡ steps.call_row (seen_row top part.entry) (seen_row top given.entry) }
{
    Row {
        kind: part.callee.gives(),
        left: Kind::Unknown,
        right: Kind::Unknown,
        callee: Callee::Nothing,
        called: part.callee,
        count: 0,
        given: given.count,
        clone: None,
        first: None,
        given_first: given.first,
        can_write: false,
    }
}

/// What is known of an expression with operands of these kinds.
pub fn pair_row<'a>(kind: Kind<'a>, left: Kind<'a>, right: Kind<'a>) -> Row<'a>
    ensures { (top : List Known) → seen_row top result ≡ steps.pair_row (seen_kind kind.entry) (seen_kind left.entry) (seen_kind right.entry) }
{
    Row {
        kind,
        left,
        right,
        callee: Callee::Nothing,
        called: Callee::Nothing,
        count: 0,
        given: 0,
        clone: None,
        first: None,
        given_first: None,
        can_write: false,
    }
}

/// What `lookahead` gives.
fn lookahead_kind<'a>(of: Kind<'a>, to: Kind<'a>) -> Kind<'a>
    ensures { seen_kind result ≡ rules.lookahead_kind (seen_kind of.entry) (seen_kind to.entry) }
{
    match of {
        Kind::PacketIn => to,
        _ => Kind::Unknown,
    }
}

/// What is known of a call of `lookahead` to a kind.
pub fn lookahead_row<'a>(to: Kind<'a>, part: Row<'a>, given: Row<'a>) -> Row<'a>
    ensures { (top : List Known) → seen_row top result ≡ steps.lookahead_row (seen_kind to.entry) (seen_row top part.entry) (seen_row top given.entry) }
{
    Row {
        kind: lookahead_kind(part.kind, to),
        left: part.kind,
        right: Kind::Unknown,
        callee: Callee::Nothing,
        called: Callee::Nothing,
        count: 0,
        given: given.count,
        clone: None,
        first: None,
        given_first: given.first,
        can_write: false,
    }
}

/// The first of a list with one argument more.
fn first_of<'a>(before: Row<'a>, last: Row<'a>) -> Option<usize>
    ensures { (top : List Known) → option_to_list result ≡ (steps.argument_row (seen_row top before.entry) (seen_row top last.entry)).first }
{
    if before.count == 0 {
        last.clone
    } else {
        before.first
    }
}

/// A number and one more. More than a number of the machine can tell is want of memory.
fn one_more(count: usize) -> Result<usize, OutOfMemory>
    ensures { IfOk result (λ more. more ≡ count + 1) }
{
    match count.checked_add(1) {
        Some(more) => Ok(more),
        None => Err(OutOfMemory),
    }
}

/// What is known of a list with one argument more. More arguments than a number of the machine can tell are want of memory.
pub fn argument_row<'a>(before: Row<'a>, last: Row<'a>) -> Result<Row<'a>, OutOfMemory>
    ensures { IfOk result (λ row. (top : List Known) → seen_row top row ≡ steps.argument_row (seen_row top before.entry) (seen_row top last.entry)) }
{
    let count = one_more(before.count)?;
    Ok(list_row(count, first_of(before, last)))
}

/// What is known of a list of so many arguments, of whose first one this is known.
fn list_row<'a>(count: usize, first: Option<usize>) -> Row<'a>
    ensures { (top : List Known) → seen_row top result ≡ record steps.no_row { count = count; first = option_to_list first } }
{
    Row {
        kind: Kind::Unknown,
        left: Kind::Unknown,
        right: Kind::Unknown,
        callee: Callee::Nothing,
        called: Callee::Nothing,
        count,
        given: 0,
        clone: None,
        first,
        given_first: None,
        can_write: false,
    }
}
