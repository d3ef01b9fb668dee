// Variables and bodies.
ghost use Rattle.std.specs.Prelude.{◌≡◌, ℕ, [], flat_map, OnOk};
ghost use Rattle.std.specs.Option.{option_map_or};
ghost use Rattle.p416_syntax.specs.Scopes.{kind_of_type};
ghost use Rattle.p416_syntax.specs.Calls.{value};
ghost use Rattle.p416_syntax.specs.Uses.{uses};
ghost use Rattle.p416_syntax.specs.Declarations.{var_uses, body_uses};
ghost use Rattle.p416_scopes.specs.Seen.{seen_scope};
ghost use Rattle.p416_expression_uses.specs.Found.{after_all};

use crate::statements::{see_at, see_statements};
use crate::variables::see_scope;
use p4x_bits::OutOfMemory;
use p416_calls::Place;
use p416_expression_uses::{Findings, TypePlace, see_type};
use p416_scopes::Scope;
use p416_syntax::{StmtView, Var};
use std::alloc::Global;

/// Judges the initial value of a variable, where it has one.
#[tactic(auto, using(crate::proofs::Turns::value_seen))]
fn see_value<'a>(
    alloc: Global,
    scope: &Scope<'_, 'a>,
    var: &'a Var,
    found: &mut Findings<'a>,
) -> Result<(), OutOfMemory>
    ensures { OnOk result (found.new ≡ after_all found.old (option_map_or (uses (seen_scope scope.now) (value (kind_of_type (seen_scope scope.now).names var.now.of))) var.now.initial [])) }
{
    match &var.initial {
        Some(value) => {
            let place = Place::Value(scope.kind_of_type(&var.of));
            see_at(alloc, scope, place, &value.view(), found)
        }
        None => Ok(()),
    }
}

/// Judges a variable of a parser or a control.
#[tactic(auto, using(p416_expression_uses::proofs::Finding::after_then))]
pub(crate) fn see_var<'a>(
    alloc: Global,
    scope: &Scope<'_, 'a>,
    var: &'a Var,
    found: &mut Findings<'a>,
) -> Result<(), OutOfMemory>
    ensures { OnOk result (found.new ≡ after_all found.old (var_uses (seen_scope scope.now) var.now)) }
{
    see_type(scope, TypePlace::Variable, &var.of, found)?;
    see_value(alloc, scope, var, found)?;
    Ok(())
}

/// Judges the variables of a parser.
#[tactic(auto, using(p416_expression_uses::proofs::Finding::after_turn))]
pub(crate) fn see_vars<'a>(
    alloc: Global,
    scope: &Scope<'_, 'a>,
    vars: &'a [Var],
    found: &mut Findings<'a>,
) -> Result<(), OutOfMemory>
    ensures { OnOk result (found.new ≡ after_all found.old (flat_map (var_uses (seen_scope scope.now)) vars.now)) }
{
    for var in vars {
        see_var(alloc, scope, var, found)?;
    }
    Ok(())
}

/// Judges the statements of a state, an action or a control, with the names that they declare. Their own braces are so many
/// blocks as may be.
#[tactic(auto, using(crate::proofs::BodyUses::body_told))]
pub(crate) fn see_body<'a>(
    alloc: Global,
    scope: &mut Scope<'_, 'a>,
    body: &StmtView<'a>,
    found: &mut Findings<'a>,
) -> Result<(), OutOfMemory>
    ensures found { OnOk result ((braces : ℕ) → found.new ≡ after_all found.old (body_uses (seen_scope scope.old) braces body.now)) }
    ensures scope { OnOk result (seen_scope scope.new ≡ seen_scope scope.old) }
    ensures top { scope.new.top ≡ scope.old.top }
{
    see_scope(alloc, body, found)?;
    see_statements(alloc, scope, body, found)?;
    Ok(())
}
