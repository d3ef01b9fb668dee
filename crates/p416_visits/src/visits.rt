// A stack holds what is still to be visited, and the changes of the scope between.
ghost use Rattle.std.specs.Prelude.{◌≡◌, ◌<◌, ◌+◌, List, ◌∷◌, ◌++◌, [], length, IfOk, OnOk, MatchOption, option_to_list, map};
ghost use Rattle.p416_syntax.specs.declared.program.Decl16.{Decl16};
ghost use Rattle.p416_syntax.specs.Scopes.{Scope as RuleScope};
ghost use Rattle.p416_syntax.specs.Statements.{visit, visits, behind, with_variable};
ghost use Rattle.p416_scopes.specs.Seen.{seen_scope};
ghost use Rattle.p416_visits.specs.declared.visits.Work.TheVariants as work;
ghost use Rattle.p416_visits.specs.Left.{left, behind_all, left_in, scope_behind, is_visited, if_visited, shortened, height, steps_of, steps};

use p4x_bits::{OutOfMemory, Text};
use p416_names::Sort;
use p416_scopes::Scope;
use p416_syntax::{StmtHead, StmtView, Type16};
use std::alloc::Global;
use work_stack::Stack;

/// What is still to be done.
#[derive(Drop)]
enum Work<'a> {
    /// A statement, or a list of statements or cases, is visited with all within it.
    Visit(StmtView<'a>),
    /// The last of a list of cases is visited, with the statements in it.
    VisitCase(StmtView<'a>, StmtView<'a>),
    /// A variable is declared.
    Declare(&'a Type16, &'a Text),
    /// The names are taken off but for so many.
    Shorten(usize),
}

/// The statements that are still to be visited.
#[derive(Drop)]
pub struct Visits<'a> {
    work: Stack<Work<'a>>,
}

/// Declares a variable of a type, which is looked up in the scope, inside the scope. The one error is want of memory.
pub fn declare_variable<'a>(
    scope: &mut Scope<'_, 'a>,
    of: &Type16,
    name: &'a Text,
) -> Result<(), OutOfMemory>
    ensures scope { OnOk result (seen_scope scope.new ≡ with_variable of.now name.now (seen_scope scope.old)) }
    ensures top { scope.new.top ≡ scope.old.top }
{
    let kind = scope.kind_of_type(of);
    scope.declare(name.as_slice(), Sort::Value(kind, true))
}

/// Takes all names off a scope that are declared within but for so many, those that were declared first. For want of memory
/// some of the others stay.
#[tactic(auto, using(crate::proofs::Visiting::scope_shortened))]
pub fn shorten<'a>(scope: &mut Scope<'_, 'a>, len: usize) -> Result<(), OutOfMemory>
    ensures scope { OnOk result (seen_scope scope.new ≡ shortened (height scope.old.top.now len) (seen_scope scope.old)) }
    ensures top { scope.new.top ≡ scope.old.top }
{
    scope.shorten(len)
}

/// Whether a statement is visited itself, before all within it.
fn is_visited(statement: &StmtView<'_>) -> bool
    ensures { result ≡ is_visited statement.now }
{
    match statement.head() {
        StmtHead::NoStatements => false,
        StmtHead::Then(_, _) => false,
        StmtHead::NoCases => false,
        StmtHead::Case(_, _, _) => false,
        _ => true,
    }
}

impl<'a> Visits<'a> {
    /// All statements within a list of statements that stands in this scope, or want of memory. All calls of `next` together
    /// take time that is proportional to the number of statements.
    #[tactic(auto, using(crate::proofs::Visiting::ends_as_it_was))]
    pub fn new(
        alloc: Global,
        scope: &Scope<'_, 'a>,
        statements: &StmtView<'a>,
    ) -> Result<Self, OutOfMemory>
        ensures visited { IfOk result (λ v. left_in scope.now v.work ≡ visits (seen_scope scope.now) statements.now) }
        ensures behind { IfOk result (λ v. scope_behind scope.now v.work ≡ seen_scope scope.now) }
    {
        let mut work = Stack::new(alloc);
        work.push_two(Work::Visit(statements.again()), Work::Shorten(scope.len()))?;
        Ok(Visits { work })
    }

    /// Puts a statement in front of what is left, behind which the scope has so many names again.
    fn put_within(&mut self, of: StmtView<'a>, len: usize) -> Result<(), OutOfMemory>
        ensures { OnOk result (self.new.work ≡ work.Visit of.entry ∷ work.Shorten len ∷ self.old.work) }
    {
        self.work.push_two(Work::Visit(of), Work::Shorten(len))
    }

    /// Puts a list of statements and one more in front of what is left.
    fn put_list(&mut self, before: StmtView<'a>, last: StmtView<'a>) -> Result<(), OutOfMemory>
        ensures { OnOk result (self.new.work ≡ work.Visit before.entry ∷ work.Visit last.entry ∷ self.old.work) }
    {
        self.work.push_two(Work::Visit(before), Work::Visit(last))
    }

    /// Puts a variable that is to be declared in front of what is left.
    fn put_variable(&mut self, of: &'a Type16, name: &'a Text) -> Result<(), OutOfMemory>
        ensures { OnOk result (self.new.work ≡ work.Declare of.entry name.entry ∷ self.old.work) }
    {
        self.work.push(Work::Declare(of, name))
    }

    /// Puts two statements in front of what is left, each in a scope with so many names.
    fn put_branches(
        &mut self,
        positive: StmtView<'a>,
        negative: StmtView<'a>,
        len: usize,
    ) -> Result<(), OutOfMemory>
        ensures { OnOk result (self.new.work ≡ work.Visit positive.entry ∷ work.Shorten len ∷ work.Visit negative.entry ∷ work.Shorten len ∷ self.old.work) }
    {
        self.put_within(negative, len)?;
        self.put_within(positive, len)
    }

    /// Puts a list of cases in front of what is left: those before the last one, then the last one.
    fn put_cases(
        &mut self,
        before: StmtView<'a>,
        last: StmtView<'a>,
        body: StmtView<'a>,
        len: usize,
    ) -> Result<(), OutOfMemory>
        ensures { OnOk result (self.new.work ≡ work.Visit before.entry ∷ work.Shorten len ∷ work.VisitCase last.entry body.entry ∷ work.Shorten len ∷ self.old.work) }
    {
        self.work
            .push_two(Work::VisitCase(last, body), Work::Shorten(len))?;
        self.put_within(before, len)
    }

    /// Puts what stands within a statement in front of what is left, in a scope with so many names.
    fn put_parts(&mut self, of: &StmtView<'a>, len: usize) -> Result<(), OutOfMemory>
        ensures within { OnOk result ((ds : List Decl16) (s : RuleScope) → length s.names ≡ height ds len → visits s of.now ++ left ds (behind of.now s) self.old.work ≡ if_visited (is_visited of.now) s of.now ++ left ds s self.new.work) }
        ensures behind { OnOk result ((ds : List Decl16) (s : RuleScope) → length s.names ≡ height ds len → behind_all ds (behind of.now s) self.old.work ≡ behind_all ds s self.new.work) }
        ensures fewer { OnOk result (steps self.new.work < steps_of of.now + steps self.old.work) }
    {
        match of.head() {
            StmtHead::Then(before, last) => self.put_list(before, last),
            StmtHead::Case(before, _, body) => self.put_cases(before, of.again(), body, len),
            StmtHead::Block(body) => self.put_within(body, len),
            StmtHead::If(_, positive) => self.put_within(positive, len),
            StmtHead::IfElse(_, positive, negative) => self.put_branches(positive, negative, len),
            StmtHead::Switch(_, cases) => self.put_within(cases, len),
            StmtHead::Var(of, name) => self.put_variable(of, name),
            StmtHead::VarIs(of, name, _) => self.put_variable(of, name),
            _ => Ok(()),
        }
    }

    /// Does the next of what is left; the statement that is visited by it, if one is.
    #[tactic(auto, using(crate::proofs::Visiting::scope_height))]
    fn take(
        &mut self,
        scope: &mut Scope<'_, 'a>,
        next: Work<'a>,
    ) -> Result<Option<StmtView<'a>>, OutOfMemory>
        ensures visited { IfOk result (λ found. left_in scope.old (next.entry ∷ self.old.work) ≡ map (visit (seen_scope scope.new)) (option_to_list found) ++ left_in scope.new self.new.work) }
        ensures behind { IfOk result (λ found. scope_behind scope.old (next.entry ∷ self.old.work) ≡ scope_behind scope.new self.new.work) }
        ensures fewer { IfOk result (λ found. steps self.new.work < steps (next.entry ∷ self.old.work)) }
        ensures top { scope.new.top ≡ scope.old.top }
    {
        match next {
            Work::Visit(of) => {
                self.put_parts(&of, scope.len())?;
                Ok(if is_visited(&of) { Some(of) } else { None })
            }
            Work::VisitCase(last, body) => {
                self.work.push(Work::Visit(body))?;
                Ok(Some(last))
            }
            Work::Declare(of, name) => {
                declare_variable(scope, of, name)?;
                Ok(None)
            }
            Work::Shorten(len) => {
                shorten(scope, len)?;
                Ok(None)
            }
        }
    }

    /// The next statement, where one is left; the scope is then the one that it stands in. Where none is left, the scope is
    /// again the one at the beginning. For want of memory it may have more names or fewer.
    pub fn next(&mut self, scope: &mut Scope<'_, 'a>) -> Result<Option<StmtView<'a>>, OutOfMemory>
        ensures visited { IfOk result (λ found. MatchOption found (left_in scope.old self.old.work ≡ []) (λ x. left_in scope.old self.old.work ≡ visit (seen_scope scope.new) x ∷ left_in scope.new self.new.work)) }
        ensures behind { IfOk result (λ found. MatchOption found (seen_scope scope.new ≡ scope_behind scope.old self.old.work) (λ x. scope_behind scope.new self.new.work ≡ scope_behind scope.old self.old.work)) }
        ensures top { scope.new.top ≡ scope.old.top }
    {
        while let Some(next) = self.work.pop() {
            let found = self.take(scope, next)?;
            if let Some(found) = found {
                return Ok(Some(found));
            }
        }
        Ok(None)
    }
}
