// How many arguments calls have (P4_16 1.2, "Function calls and method invocations", "Actions").
ghost use Rattle.std.specs.Prelude.{◌≡◌, List};
ghost use Rattle.p416_syntax.specs.Scopes.{Known};
ghost use Rattle.p416_calls.specs.Seen.{seen_callee};
ghost use Rattle.p416_names.specs.SeenKinds.{seen_kind};
ghost use Rattle.p416_expression_check.specs.internal.Broken.{takes_other_by, miscounted_by, application_by};

use p416_calls::Callee;
use p416_names::Kind;
use p416_syntax::{ExpHead, ExpView};

/// Whether what is called takes another number of arguments.
fn takes_other_count(called: Callee<'_>, given: usize) -> bool
    ensures { (top : List Known) → result ≡ takes_other_by (seen_callee top called.entry) given }
{
    match called {
        Callee::Nothing => false,
        called => called.count() != given,
    }
}

/// Whether a call has a wrong number of arguments, given what is called and how many there are (T6).
pub(crate) fn is_miscounted(view: &ExpView<'_>, called: Callee<'_>, given: usize) -> bool
    ensures { (top : List Known) → result ≡ miscounted_by (seen_callee top called.entry) given view.now }
{
    match view.head() {
        ExpHead::Call(_, _) => takes_other_count(called, given),
        ExpHead::Lookahead(_, _, _) => given != 0,
        _ => false,
    }
}

/// Whether a table is applied, given what the expression is.
pub(crate) fn is_application(view: &ExpView<'_>, kind: Kind<'_>) -> bool
    ensures { result ≡ application_by (seen_kind kind.entry) view.now }
{
    match view.head() {
        ExpHead::Call(_, _) => matches!(kind, Kind::Applied),
        _ => false,
    }
}
