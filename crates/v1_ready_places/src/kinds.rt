// What an expression is (P4_16 1.2, "Expressions").
ghost use Rattle.std.specs.Prelude.{◌≡◌, List, map, IfOk};
ghost use Rattle.p416_syntax.specs.Scopes.{Known};
ghost use Rattle.p416_syntax.specs.Expressions.{kind_of};
ghost use Rattle.p416_names.specs.SeenKinds.{seen_kind};
ghost use Rattle.p416_scopes.specs.Seen.{seen_scope};
ghost use Rattle.p416_typing.specs.Seen.{seen_row};
ghost use Rattle.v1_ready_places.specs.internal.Chains.{kind_first};

use p4x_bits::OutOfMemory;
use p416_names::Kind;
use p416_scopes::Scope;
use p416_syntax::ExpView;
use p416_typing::{Row, typed_expression};
use std::alloc::Global;
use work_stack::Stack;

/// What the first of these rows tells of its expression; unknown where there is none.
fn first_kind<'a>(rows: &mut Stack<Row<'a>>) -> Kind<'a>
    ensures { (top : List Known) → seen_kind result ≡ kind_first (map (seen_row top) rows.old) }
{
    match rows.pop() {
        Some(row) => row.kind,
        None => Kind::Unknown,
    }
}

/// What an expression is, in a scope. The time is proportional to what stands within it, but for look-ups. The one error is want of
/// memory.
#[tactic(auto, using(crate::proofs::Telling::kind_is))]
pub fn kind_of<'a>(
    alloc: Global,
    scope: &Scope<'_, 'a>,
    expression: &ExpView<'a>,
) -> Result<Kind<'a>, OutOfMemory>
    ensures { IfOk result (λ kind. seen_kind kind ≡ kind_of (seen_scope scope.now) expression.now) }
{
    let mut typed = typed_expression(alloc, scope, expression)?;
    Ok(first_kind(&mut typed.rows))
}
