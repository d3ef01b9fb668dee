// Calls as statements (P4_16 1.2, "Function calls and method invocations").
ghost use Rattle.std.specs.Prelude.{◌≡◌, option_map, IfOk, OnOk};
ghost use Rattle.p416_syntax.specs.Heads.{of_exp_head};
ghost use Rattle.p416_syntax.specs.Tree as tree;
ghost use Rattle.p416_syntax.specs.Declarations.{layouts_of, top_names};
ghost use Rattle.p416_syntax.specs.Expressions.{kind_of};
ghost use Rattle.p416_names.specs.Seen.{seen_sort};
ghost use Rattle.p416_syntax.specs.Uses.{arguments_of};
ghost use Rattle.p416_syntax.specs.Scopes.{sort_of};
ghost use Rattle.p416_scopes.specs.Seen.{seen_scope};
ghost use Rattle.v1_ready_blocks.specs.Statements.{does};
ghost use Rattle.v1_ready_program.specs.Seen.{seen_seats};
ghost use Rattle.v1_ready_nodes.specs.Held.{IsHeld, Grows};
ghost use Rattle.v1_ready_statements.specs.Called.{named_statement, method_deed, call_ready, expression_ready};
ghost use Rattle.v1_ready_operands.specs.SeenStatements.{seen_statement, IsStatementIn};
ghost use Rattle.v1_ready_operands.specs.Callees.{around_of, AreCallees};
ghost use Rattle.v1_ready_operands.specs.internal.Passes.{let_go_ready};
ghost use Rattle.v1_ready_calls.specs.internal.Calls.{call_in, ready_by};

use p4x_bits::OutOfMemory;
use p416_calls::Place;
use p416_names::Sort;
use p416_syntax::{ExpHead, ExpView};
use std::alloc::Global;
use v1_ready_actions::ready_action;
use v1_ready_functions::ready_function;
use v1_ready_methods::{ready_let_go, ready_method};
use v1_ready_nodes::ReadyNodes;
use v1_ready_operands::Callees;
use v1_ready_places::kind_of;
use v1_ready_program::Around;

/// A call of what a name is declared as.
fn call_declared<'a>(
    alloc: Global,
    nodes: &mut ReadyNodes<'_>,
    around: Around<'_, 'a>,
    callees: Callees<'_, 'a>,
    sort: Sort<'a>,
    name: &[u8],
    given: &ExpView<'a>,
) -> Result<Option<usize>, OutOfMemory>
    requires held { IsHeld nodes.old }
    requires types { around.types.now ≡ layouts_of around.scope.now.top.now }
    requires callees { AreCallees callees }
    ensures statement { IfOk result (λ found. seen_statement nodes.new found ≡ named_statement (around_of callees.entry) (seen_scope around.entry.scope.now) (seen_seats around.entry.seats.now) (seen_sort (top_names around.entry.scope.now.top.now) sort.entry) name.now (arguments_of given.now)) }
    ensures within { IfOk result (IsStatementIn nodes.new) }
    ensures grows { OnOk result (Grows nodes.old nodes.new) }
{
    match sort {
        Sort::Action(_) => ready_action(alloc, nodes, around, callees, name, given),
        Sort::Function => ready_function(alloc, nodes, around, callees, name, given),
        _ => Ok(None),
    }
}

/// A call of an action or of a function by its name.
fn call_named<'a>(
    alloc: Global,
    nodes: &mut ReadyNodes<'_>,
    around: Around<'_, 'a>,
    callees: Callees<'_, 'a>,
    name: &[u8],
    given: &ExpView<'a>,
) -> Result<Option<usize>, OutOfMemory>
    requires held { IsHeld nodes.old }
    requires types { around.types.now ≡ layouts_of around.scope.now.top.now }
    requires callees { AreCallees callees }
    ensures statement { IfOk result (λ found. seen_statement nodes.new found ≡ named_statement (around_of callees.entry) (seen_scope around.entry.scope.now) (seen_seats around.entry.seats.now) (sort_of (seen_scope around.entry.scope.now) name.now) name.now (arguments_of given.now)) }
    ensures within { IfOk result (IsStatementIn nodes.new) }
    ensures grows { OnOk result (Grows nodes.old nodes.new) }
{
    let sort = around.scope.sort_of(name);
    let statement = call_declared(alloc, nodes, around, callees, sort, name, given)?;
    Ok(statement)
}

/// A call of a method by its name.
fn call_member<'a>(
    alloc: Global,
    nodes: &mut ReadyNodes<'_>,
    around: Around<'_, 'a>,
    callees: Callees<'_, 'a>,
    call: &ExpView<'a>,
    owner: &ExpView<'a>,
    word: &[u8],
    given: &ExpView<'a>,
) -> Result<Option<usize>, OutOfMemory>
    requires held { IsHeld nodes.old }
    requires types { around.types.now ≡ layouts_of around.scope.now.top.now }
    requires callees { AreCallees callees }
    requires whole { call.now ≡ tree.call (tree.member owner.now word.now) given.now }
    ensures statement { IfOk result (λ found. seen_statement nodes.new found ≡ option_map does (method_deed (around_of callees.entry) (seen_scope around.entry.scope.now) (seen_seats around.entry.seats.now) (kind_of (seen_scope around.entry.scope.now) owner.now) owner.now word.now (arguments_of given.now))) }
    ensures within { IfOk result (IsStatementIn nodes.new) }
    ensures grows { OnOk result (Grows nodes.old nodes.new) }
{
    let kind = kind_of(alloc, around.scope, owner)?;
    let statement = ready_method(
        alloc, nodes, around, callees, kind, call, owner, word, given,
    )?;
    Ok(statement)
}

/// A call of what has this outermost constructor.
fn call_by_head<'a>(
    alloc: Global,
    nodes: &mut ReadyNodes<'_>,
    around: Around<'_, 'a>,
    callees: Callees<'_, 'a>,
    call: &ExpView<'a>,
    callee: ExpHead<'a>,
    given: &ExpView<'a>,
) -> Result<Option<usize>, OutOfMemory>
    requires held { IsHeld nodes.old }
    requires types { around.types.now ≡ layouts_of around.scope.now.top.now }
    requires callees { AreCallees callees }
    requires whole { call.now ≡ tree.call (of_exp_head callee) given.now }
    ensures statement { IfOk result (λ found. seen_statement nodes.new found ≡ call_ready (around_of callees.entry) (seen_scope around.entry.scope.now) (seen_seats around.entry.seats.now) (of_exp_head callee.entry) given.now) }
    ensures within { IfOk result (IsStatementIn nodes.new) }
    ensures grows { OnOk result (Grows nodes.old nodes.new) }
{
    match callee {
        ExpHead::Name(name) => call_named(alloc, nodes, around, callees, name.as_slice(), given),
        ExpHead::Member(owner, word) => {
            let word = word.as_slice();
            call_member(alloc, nodes, around, callees, call, &owner, word, given)
        }
        _ => Ok(None),
    }
}

/// A call of this with these arguments.
fn call_of<'a>(
    alloc: Global,
    nodes: &mut ReadyNodes<'_>,
    around: Around<'_, 'a>,
    callees: Callees<'_, 'a>,
    call: &ExpView<'a>,
    callee: &ExpView<'a>,
    given: &ExpView<'a>,
) -> Result<Option<usize>, OutOfMemory>
    requires held { IsHeld nodes.old }
    requires types { around.types.now ≡ layouts_of around.scope.now.top.now }
    requires callees { AreCallees callees }
    requires whole { call.now ≡ tree.call callee.now given.now }
    ensures statement { IfOk result (λ found. seen_statement nodes.new found ≡ call_ready (around_of callees.entry) (seen_scope around.entry.scope.now) (seen_seats around.entry.seats.now) callee.now given.now) }
    ensures within { IfOk result (IsStatementIn nodes.new) }
    ensures grows { OnOk result (Grows nodes.old nodes.new) }
{
    let statement = call_by_head(alloc, nodes, around, callees, call, callee.head(), given)?;
    Ok(statement)
}

/// What is no call, whose value is let go.
fn let_go<'a>(
    alloc: Global,
    nodes: &mut ReadyNodes<'_>,
    around: Around<'_, 'a>,
    callees: Callees<'_, 'a>,
    value: &ExpView<'a>,
) -> Result<Option<usize>, OutOfMemory>
    requires held { IsHeld nodes.old }
    requires types { around.types.now ≡ layouts_of around.scope.now.top.now }
    requires callees { AreCallees callees }
    ensures statement { IfOk result (λ found. seen_statement nodes.new found ≡ let_go_ready (around_of callees.entry) (seen_scope around.entry.scope.now) (seen_seats around.entry.seats.now) value.now) }
    ensures within { IfOk result (IsStatementIn nodes.new) }
    ensures grows { OnOk result (Grows nodes.old nodes.new) }
{
    let place = Place::Owner;
    let statement = ready_let_go(alloc, nodes, around, callees.tables, place, value)?;
    Ok(statement)
}

/// A call, by what is called and its arguments.
#[derive(Drop)]
pub struct Called<'a> {
    /// What is called.
    pub callee: ExpView<'a>,
    /// The list of its arguments.
    pub given: ExpView<'a>,
}

/// What an expression calls; none where it is no call.
fn call_in<'a>(view: &ExpView<'a>) -> Option<Called<'a>>
    ensures { result ≡ call_in view.now }
{
    match view.head() {
        ExpHead::Call(callee, given) => Some(Called { callee, given }),
        _ => None,
    }
}

/// A call, or another expression whose value is let go.
fn ready_by<'a>(
    alloc: Global,
    nodes: &mut ReadyNodes<'_>,
    around: Around<'_, 'a>,
    callees: Callees<'_, 'a>,
    call: &ExpView<'a>,
    called: Option<Called<'a>>,
) -> Result<Option<usize>, OutOfMemory>
    requires held { IsHeld nodes.old }
    requires types { around.types.now ≡ layouts_of around.scope.now.top.now }
    requires callees { AreCallees callees }
    requires whole { called ≡ call_in call.now }
    ensures statement { IfOk result (λ found. seen_statement nodes.new found ≡ ready_by (around_of callees.entry) (seen_scope around.entry.scope.now) (seen_seats around.entry.seats.now) call.now called.entry) }
    ensures within { IfOk result (IsStatementIn nodes.new) }
    ensures grows { OnOk result (Grows nodes.old nodes.new) }
{
    match called {
        Some(called) => {
            call_of(
                alloc,
                nodes,
                around,
                callees,
                call,
                &called.callee,
                &called.given,
            )
        }
        None => let_go(alloc, nodes, around, callees, call),
    }
}

/// Makes a call as a statement of a block ready, or another expression whose value is let go: the place of the statement, which is put
/// behind the others; none exactly where it is no call that a program may have. The time is proportional to what stands within it, but
/// for look-ups. The one error is want of memory, which more or fewer arguments than a call has, and numbers, widths and places count
/// as that no accepted program has.
pub fn ready_call<'a>(
    alloc: Global,
    nodes: &mut ReadyNodes<'_>,
    around: Around<'_, 'a>,
    callees: Callees<'_, 'a>,
    call: &ExpView<'a>,
) -> Result<Option<usize>, OutOfMemory>
    requires held { IsHeld nodes.old }
    requires types { around.types.now ≡ layouts_of around.scope.now.top.now }
    requires callees { AreCallees callees }
    ensures statement { IfOk result (λ found. seen_statement nodes.new found ≡ expression_ready (around_of callees.entry) (seen_scope around.entry.scope.now) (seen_seats around.entry.seats.now) call.now) }
    ensures within { IfOk result (IsStatementIn nodes.new) }
    ensures grows { OnOk result (Grows nodes.old nodes.new) }
{
    let called = call_in(call);
    let statement = ready_by(alloc, nodes, around, callees, call, called)?;
    Ok(statement)
}
