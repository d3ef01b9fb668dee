// Each expression takes the rows of its parts off the stack.
ghost use Rattle.std.specs.Prelude.{◌≡◌, ◌∷◌, List, map, IfOk};
ghost use Rattle.p416_syntax.specs.declared.parts.Type16.{Type16 as TypeTree};
ghost use Rattle.p416_syntax.specs.Tree.{Exp16, member, index, slice, call, lookahead, cast, unary, binary, choice, argument, listed};
ghost use Rattle.p416_syntax.specs.Scopes.{Known, Scope as RuleScope};
ghost use Rattle.p416_syntax.specs.Declarations.{top_names};
ghost use Rattle.p416_scopes.specs.Seen.{seen_scope};
ghost use Rattle.p416_typing.specs.Seen.{seen_row};
ghost use Rattle.p416_typing.specs.internal.Steps.{pushed};

use crate::parts::{
    argument_row, call_row, kind_row, lookahead_row, member_row, pair_row, part_row, take_row,
};
use crate::row::Row;
use p4x_bits::OutOfMemory;
use p416_names::{Kind, binary_kind, cast_kind, choice_kind, element_kind, slice_kind, unary_kind};
use p416_scopes::Scope;
use p416_syntax::{BinaryOperator, CastType, Literal16, Type16, UnaryOperator};
use work_stack::Stack;

/// A member by its word.
pub fn member_step<'a>(scope: &Scope<'_, 'a>, values: &mut Stack<Row<'a>>, word: &[u8]) -> Row<'a>
    ensures { (e : Exp16) → pushed (seen_scope scope.now) (member e word.now) (map (seen_row (top_names scope.now.top.now)) values.old) ≡ seen_row (top_names scope.now.top.now) result ∷ map (seen_row (top_names scope.now.top.now)) values.new }
{
    let part = take_row(values);
    member_row(scope, part, word)
}

/// An element of a stack.
pub fn index_step<'a>(values: &mut Stack<Row<'a>>) -> Row<'a>
    ensures { (top : List Known) (s : RuleScope) (e : Exp16) (at : Literal16) → pushed s (index e at) (map (seen_row top) values.old) ≡ seen_row top result ∷ map (seen_row top) values.new }
{
    let part = take_row(values);
    part_row(element_kind(part.kind), part)
}

/// A slice.
pub fn slice_step<'a>(values: &mut Stack<Row<'a>>, high: Literal16, low: Literal16) -> Row<'a>
    ensures { (top : List Known) (s : RuleScope) (e : Exp16) → pushed s (slice e high low) (map (seen_row top) values.old) ≡ seen_row top result ∷ map (seen_row top) values.new }
{
    let part = take_row(values);
    part_row(slice_kind(part.kind, high, low), part)
}

/// A call.
pub fn call_step<'a>(values: &mut Stack<Row<'a>>) -> Row<'a>
    ensures { (top : List Known) (s : RuleScope) (e given : Exp16) → pushed s (call e given) (map (seen_row top) values.old) ≡ seen_row top result ∷ map (seen_row top) values.new }
{
    let callee = take_row(values);
    let given = take_row(values);
    call_row(callee, given)
}

/// A call of `lookahead`.
pub fn lookahead_step<'a>(
    scope: &Scope<'_, 'a>,
    values: &mut Stack<Row<'a>>,
    to: &Type16,
) -> Row<'a>
    ensures { (e given : Exp16) → pushed (seen_scope scope.now) (lookahead e to.now given) (map (seen_row (top_names scope.now.top.now)) values.old) ≡ seen_row (top_names scope.now.top.now) result ∷ map (seen_row (top_names scope.now.top.now)) values.new }
{
    let part = take_row(values);
    let given = take_row(values);
    lookahead_row(scope.kind_of_type(to), part, given)
}

/// A cast.
pub fn cast_step<'a>(values: &mut Stack<Row<'a>>, to: CastType) -> Row<'a>
    ensures { (top : List Known) (s : RuleScope) (e : Exp16) → pushed s (cast to e) (map (seen_row top) values.old) ≡ seen_row top result ∷ map (seen_row top) values.new }
{
    let _part = take_row(values);
    kind_row(cast_kind(to))
}

/// An operator in front of its operand.
pub fn unary_step<'a>(values: &mut Stack<Row<'a>>, operator: UnaryOperator) -> Row<'a>
    ensures { (top : List Known) (s : RuleScope) (e : Exp16) → pushed s (unary operator e) (map (seen_row top) values.old) ≡ seen_row top result ∷ map (seen_row top) values.new }
{
    let part = take_row(values);
    pair_row(unary_kind(operator, part.kind), part.kind, Kind::Unknown)
}

/// An operator between its operands.
pub fn binary_step<'a>(values: &mut Stack<Row<'a>>, operator: BinaryOperator) -> Row<'a>
    ensures { (top : List Known) (s : RuleScope) (a b : Exp16) → pushed s (binary operator a b) (map (seen_row top) values.old) ≡ seen_row top result ∷ map (seen_row top) values.new }
{
    let left = take_row(values);
    let right = take_row(values);
    pair_row(
        binary_kind(operator, left.kind, right.kind),
        left.kind,
        right.kind,
    )
}

/// A choice.
pub fn choice_step<'a>(values: &mut Stack<Row<'a>>) -> Row<'a>
    ensures { (top : List Known) (s : RuleScope) (c a b : Exp16) → pushed s (choice c a b) (map (seen_row top) values.old) ≡ seen_row top result ∷ map (seen_row top) values.new }
{
    let _condition = take_row(values);
    let left = take_row(values);
    let right = take_row(values);
    pair_row(choice_kind(left.kind, right.kind), left.kind, right.kind)
}

/// One more argument. More arguments than a number of the machine can tell are want of memory.
pub fn argument_step<'a>(values: &mut Stack<Row<'a>>) -> Result<Row<'a>, OutOfMemory>
    ensures { IfOk result (λ row. (top : List Known) (s : RuleScope) (before last : Exp16) → pushed s (argument before last) (map (seen_row top) values.old) ≡ seen_row top row ∷ map (seen_row top) values.new) }
{
    let before = take_row(values);
    let last = take_row(values);
    argument_row(before, last)
}

/// A list in braces.
pub fn listed_step<'a>(values: &mut Stack<Row<'a>>) -> Row<'a>
    ensures { (top : List Known) (s : RuleScope) (es : Exp16) → pushed s (listed es) (map (seen_row top) values.old) ≡ seen_row top result ∷ map (seen_row top) values.new }
{
    let _items = take_row(values);
    kind_row(Kind::Items)
}
