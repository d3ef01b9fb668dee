// The labels of `switch` (P4_16 1.2, "Switch statement").
ghost use Rattle.std.specs.Prelude.{◌≡◌, [], Bool, true, ◌&&◌, List, MatchOption, IfOk, OnOk};
ghost use Rattle.std.specs.List.{list_any};
ghost use Rattle.p416_syntax.specs.declared.controls.ActionName.TheVariants as action_name;
ghost use Rattle.p416_syntax.specs.Tree.{case_of};
ghost use Rattle.p416_syntax.specs.Names.{Name, has_name};
ghost use Rattle.p416_syntax.specs.Scopes.{Known, Scope as RuleScope, sort_in, sort_of};
ghost use Rattle.p416_syntax.specs.Statements.{labels_of};
ghost use Rattle.p416_syntax.specs.Tables.{is_outside_label, is_same_action, listed_by};
ghost use Rattle.p416_names.specs.Seen.{seen_sort};
ghost use Rattle.p416_scopes.specs.Seen.{seen_scope};
ghost use Rattle.p416_listed_check.specs.Listings.{AreListed, ListsScope};
ghost use Rattle.p416_listed_check.specs.internal.Labels.{Tells, is_listed, is_outside_listed};

use crate::pairs::{PairSet, add_actions};
use p4x_bits::{OutOfMemory, Text};
use p416_name_set::NameSet;
use p416_names::Sort;
use p416_scopes::Scope;
use p416_syntax::{ActionName, CaseLabel, StmtHead, StmtView};
use std::alloc::Global;
use std::marker::Model;

/// Tables with the actions that they list, by their names; each table is gone through once. Contracts see the names of the
/// tables, and each with its actions.
#[derive(Drop)]
pub struct Listings<'a> {
    tables: NameSet<'a>,
    listed: PairSet<'a>,
}

impl<'a> Model for Listings<'a> {
    ghost use Rattle.p416_listed_check.specs.Listings.{Listed};

    ghost Value = { Listed };

    ghost view = { λ l. (l.tables, l.listed) };
}

impl<'a> Listings<'a> {
    /// No table was gone through. It takes no memory until one is.
    #[tactic(auto, using(crate::proofs::Entering::none_listed))]
    pub fn new(alloc: Global) -> Self
        ensures { (s : RuleScope) → ListsScope s result }
    {
        Listings {
            tables: NameSet::new(alloc),
            listed: PairSet::new(alloc),
        }
    }

    /// Goes through a table with these actions, unless that was done.
    fn enter(&mut self, table: &'a [u8], actions: &'a [ActionName]) -> Result<(), OutOfMemory>
        ensures listed { OnOk result ((names : List Known) → listed_by (sort_in names table.now) ≡ actions.now → AreListed names self.old → AreListed names self.new) }
        ensures there { OnOk result (has_name self.new.0 table.now ≡ true) }
    {
        match self.tables.add(table)? {
            true => add_actions(&mut self.listed, table, actions),
            false => Ok(()),
        }
    }

    /// Goes through what a name means, where that is a table, unless that was done; whether it is a table.
    fn enter_sort(&mut self, table: &'a [u8], sort: Sort<'a>) -> Result<bool, OutOfMemory>
        ensures listed { OnOk result ((tops names : List Known) → Tells names table.now (seen_sort tops sort.entry) → AreListed names self.old → AreListed names self.new) }
        ensures known { IfOk result (λ known. (tops names : List Known) → Tells names table.now (seen_sort tops sort.entry) → AreListed names self.old → (action : Name) → is_listed known self.new.1 table.now action ≡ list_any (is_same_action (action_name.Declared action)) (listed_by (seen_sort tops sort.entry))) }
    {
        match sort {
            Sort::Table(found) => {
                self.enter(table, found.actions())?;
                Ok(true)
            }
            _ => Ok(false),
        }
    }

    /// Whether a table that was gone through lists an action.
    fn has(&self, table: &[u8], action: &[u8]) -> bool
        ensures { result ≡ is_listed true self.now.1 table.now action.now }
    {
        self.listed.has(table, action)
    }
}

/// Whether a label names no action that a table lists, where a table is known by that name.
fn is_outside(known: bool, listed: &Listings<'_>, table: &[u8], label: &CaseLabel) -> bool
    ensures { result ≡ is_outside_listed known listed.now.1 table.now label.now }
{
    match label {
        CaseLabel::Action(name) => !(known && listed.has(table, name.as_slice())),
        CaseLabel::Default => false,
    }
}

/// The last of a list of cases: the cases in front of it, its label and its statements; none where there are no cases.
fn last_of<'a>(cases: &StmtView<'a>) -> Option<(StmtView<'a>, &'a CaseLabel, StmtView<'a>)>
    ensures { MatchOption result (labels_of cases.now ≡ []) (λ parts. cases.now ≡ case_of parts.0 parts.1.now parts.2) }
{
    match cases.head() {
        StmtHead::Case(before, label, body) => Some((before, label, body)),
        _ => None,
    }
}

/// Whether the label of one of these cases names no action that a table lists, where a table is known by that name.
#[tactic(auto, using(crate::proofs::Labelling::label_on, crate::proofs::Labelling::label_found, crate::proofs::Labelling::no_label, crate::proofs::Labelling::fewer))]
fn some_outside(known: bool, listed: &Listings<'_>, table: &[u8], cases: &StmtView<'_>) -> bool
    ensures { result ≡ list_any (is_outside_listed known listed.now.1 table.now) (labels_of cases.now) }
{
    let mut left = cases.again();
    while let Some((before, label, _)) = last_of(&left) {
        if is_outside(known, listed, table, label) {
            return true;
        }
        left = before;
    }
    false
}

/// Whether a label of a `switch` names no action that its table lists, where the table is that of this name: what T9 asks of the
/// labels, exactly, given the tables in scope that were gone through; the table is one of them from then on. In time linear in
/// the labels and, the first time, in the actions of the table, but for the look-ups; the one error is want of memory.
pub fn has_outside_label<'a>(
    listed: &mut Listings<'a>,
    scope: &Scope<'_, 'a>,
    table: &'a Text,
    cases: &StmtView<'_>,
) -> Result<bool, OutOfMemory>
    requires { ListsScope (seen_scope scope.now) listed.old }
    ensures outside { IfOk result (λ outside. outside ≡ list_any (is_outside_label (listed_by (sort_of (seen_scope scope.now) table.now))) (labels_of cases.now)) }
    ensures listed { OnOk result (ListsScope (seen_scope scope.now) listed.new) }
{
    let called = table.as_slice();
    let known = listed.enter_sort(called, scope.sort_of(called))?;
    let outside = some_outside(known, &*listed, called, cases);
    Ok(outside)
}
