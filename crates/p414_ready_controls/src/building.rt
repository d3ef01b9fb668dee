// The nodes of a control.
ghost use Rattle.std.specs.Prelude.{◌≡◌, ◌+◌, [], ◌∷◌, Some, None, IfOk, OnOk};
ghost use Rattle.p414_syntax.specs.Heads.{of_head};
ghost use Rattle.p414_ready_controls.specs.Nodes.{branches_node, kept_label, named_by, nodes_of, table_place, with_named};
ghost use Rattle.p414_ready_controls.specs.declared.nodes.ControlNode.TheVariants as kind;
ghost use Rattle.p414_ready_controls.specs.internal.Building.{first_named, first_part, first_size, nothing_built, other_parts, part, put_all, put_leaf, put_node, put_one, put_two};

use crate::names::ControlNames;
use crate::nodes::ControlNode;
use p4x_bits::{OutOfMemory, Rows, Text};
use p414_ready_conditions::{ReadyCondition, ready_condition};
use p414_syntax::{Label, StmtHead, StmtView, statements_within};
use std::alloc::Global;
use std::marker::Model;
use work_stack::Stack;

/// A statement in which none of the others stands that were put: how many nodes it has, and the actions that it names, if it is
/// a list of branches.
#[derive(Drop)]
struct Part {
    size: u32,
    named: Option<Rows<u32>>,
}

/// The nodes that were made so far, from the last one on, and the statements in which none of the others stands.
struct Building {
    nodes: Stack<ControlNode>,
    parts: Stack<Part>,
}

impl Drop for Building {
    fn drop(self) {
        let Building {
            nodes: _nodes,
            parts: _parts,
        } = self;
    }
}

impl Model for Building {
    ghost use Rattle.p414_ready_controls.specs.internal.Building.{Built};

    ghost Value = { Built };

    ghost view = { λ b. record { nodes = b.nodes; parts = b.parts } };
}

/// One more than a number of nodes. 2^32 nodes and more count as want of memory.
fn one_more(size: u32) -> Result<u32, OutOfMemory>
    ensures { IfOk result (λ more. more ≡ size + 1) }
{
    match size.checked_add(1) {
        Some(more) => Ok(more),
        None => Err(OutOfMemory),
    }
}

/// One more than two numbers of nodes together. 2^32 nodes and more count as want of memory.
fn more_than_both(first: u32, second: u32) -> Result<u32, OutOfMemory>
    ensures { IfOk result (λ more. more ≡ first + second + 1) }
{
    match first.checked_add(second) {
        Some(both) => one_more(both),
        None => Err(OutOfMemory),
    }
}

/// A table is applied, and behind it stand branches that name these actions.
fn branches_node(
    names: &ControlNames<'_, '_>,
    table: &Text,
    named: Option<Rows<u32>>,
) -> Result<ControlNode, OutOfMemory>
    ensures { IfOk result (λ node. node ≡ branches_node (table_place names.now table.now) named) }
{
    let number = names.table(table.as_slice())?;
    match named {
        Some(named) => Ok(ControlNode::ApplyBranches(number, named)),
        None => Ok(ControlNode::NoBranches),
    }
}

impl Building {
    /// Nothing.
    fn new(alloc: Global) -> Building
        ensures { result ≡ nothing_built }
    {
        Building {
            nodes: Stack::new(alloc),
            parts: Stack::new(alloc),
        }
    }

    /// Takes the part in front; one without nodes where there is none.
    fn take_part(&mut self) -> Part
        ensures is { result ≡ first_part self.old.parts }
        ensures rest { self.new ≡ record { nodes = self.old.nodes; parts = other_parts self.old.parts } }
    {
        match self.parts.pop() {
            Some(part) => part,
            None => Part {
                size: 0,
                named: None,
            },
        }
    }

    /// Puts a node, and what its statement is.
    fn put(
        &mut self,
        node: ControlNode,
        size: u32,
        named: Option<Rows<u32>>,
    ) -> Result<(), OutOfMemory>
        ensures { OnOk result (self.new ≡ record { nodes = node ∷ self.old.nodes; parts = part size named ∷ self.old.parts }) }
    {
        self.nodes.push(node)?;
        self.parts.push(Part { size, named })
    }

    /// Puts a statement without parts.
    fn put_leaf(&mut self, node: ControlNode) -> Result<(), OutOfMemory>
        ensures { OnOk result (self.new ≡ put_leaf node None self.old) }
    {
        self.put(node, 1, None)
    }

    /// Puts a list without branches.
    fn put_no_branches(&mut self, alloc: Global) -> Result<(), OutOfMemory>
        ensures { OnOk result (self.new ≡ put_leaf kind.Nothing (Some []) self.old) }
    {
        self.put(ControlNode::Nothing, 1, Some(Rows::new(alloc)))
    }

    /// Puts a statement with one part.
    fn put_inner(&mut self) -> Result<(), OutOfMemory>
        ensures { OnOk result (self.new ≡ put_one kind.Inner self.old) }
    {
        let inner = self.take_part();
        let size = one_more(inner.size)?;
        self.put(ControlNode::Inner, size, None)
    }

    /// Puts that a table is applied, with branches behind it.
    fn put_branches(
        &mut self,
        names: &ControlNames<'_, '_>,
        table: &Text,
    ) -> Result<(), OutOfMemory>
        ensures { OnOk result (self.new ≡ put_one (branches_node (table_place names.now table.now) (first_named self.old)) self.old) }
    {
        let branches = self.take_part();
        let size = one_more(branches.size)?;
        let node = branches_node(names, table, branches.named)?;
        self.put(node, size, None)
    }

    /// Puts two parts, one after the other.
    fn put_both(&mut self) -> Result<(), OutOfMemory>
        ensures { OnOk result (self.new ≡ put_two (kind.Both (first_size self.old)) None self.old) }
    {
        let first = self.take_part();
        let second = self.take_part();
        let size = more_than_both(first.size, second.size)?;
        self.put(ControlNode::Both(first.size), size, None)
    }

    /// Puts an `if`.
    fn put_if(&mut self, condition: ReadyCondition) -> Result<(), OutOfMemory>
        ensures { OnOk result (self.new ≡ put_two (kind.If condition (first_size self.old)) None self.old) }
    {
        let first = self.take_part();
        let second = self.take_part();
        let size = more_than_both(first.size, second.size)?;
        self.put(ControlNode::If(condition, first.size), size, None)
    }

    /// Puts a branch.
    fn put_branch(&mut self, names: &ControlNames<'_, '_>, label: &Label) -> Result<(), OutOfMemory>
        ensures { OnOk result (self.new ≡ put_two (kind.Branch (kept_label names.now label.now) (first_size self.old)) (with_named (first_named self.old) (named_by names.now label.now)) self.old) }
    {
        let first = self.take_part();
        let second = self.take_part();
        let size = more_than_both(first.size, second.size)?;
        let named = names.with_label(first.named, label)?;
        self.put(
            ControlNode::Branch(names.label(label), first.size),
            size,
            named,
        )
    }

    /// Puts a statement whose parts were put.
    fn put_statement(
        &mut self,
        alloc: Global,
        names: &ControlNames<'_, '_>,
        head: StmtHead<'_>,
    ) -> Result<(), OutOfMemory>
        ensures { OnOk result (self.new ≡ put_node names.now (of_head head.entry) self.old) }
    {
        match head {
            StmtHead::NoStatements => self.put_leaf(ControlNode::Nothing),
            StmtHead::Then(_, _) => self.put_both(),
            StmtHead::Apply(table) => {
                let number = names.table(table.as_slice())?;
                self.put_leaf(ControlNode::Apply(number))
            }
            StmtHead::ApplyBranches(table, _) => self.put_branches(names, table),
            StmtHead::If(condition, _, _) => {
                let ready = ready_condition(alloc, names.slots(), &condition)?;
                self.put_if(ready)
            }
            StmtHead::Call(name) => {
                let number = names.control(name.as_slice())?;
                self.put_leaf(ControlNode::Call(number))
            }
            StmtHead::NoElse => self.put_leaf(ControlNode::Nothing),
            StmtHead::ElseBlock(_) => self.put_inner(),
            StmtHead::ElseIf(_) => self.put_inner(),
            StmtHead::NoBranches => self.put_no_branches(alloc),
            StmtHead::Branch(_, label, _) => self.put_branch(names, label),
        }
    }
}

/// Puts all of these statements, the last one first.
#[tactic(auto, using(crate::proofs::Built::none_put, crate::proofs::Built::one_put, crate::proofs::Built::all_put))]
fn put_all(
    alloc: Global,
    names: &ControlNames<'_, '_>,
    statements: &[StmtView<'_>],
) -> Result<Building, OutOfMemory>
    ensures { IfOk result (λ built. built ≡ put_all names.now statements.now nothing_built) }
{
    let mut built = Building::new(alloc);
    let count = statements.len();
    for done in 0..count {
        built.put_statement(alloc, names, statements[count - 1 - done].head())?;
    }
    Ok(built)
}

/// The nodes that were made, the first one first.
fn taken_nodes(
    alloc: Global,
    left: &mut Stack<ControlNode>,
) -> Result<Rows<ControlNode>, OutOfMemory>
    ensures { IfOk result (λ nodes. nodes ≡ left.old) }
{
    let mut nodes = Rows::new(alloc);
    while let Some(node) = left.pop() {
        nodes.push(node)?;
    }
    Ok(nodes)
}

/// The nodes of a statement and of all that stands within it. In time linear in its statements and conditions.
pub fn nodes_of(
    alloc: Global,
    names: &ControlNames<'_, '_>,
    statement: &StmtView<'_>,
) -> Result<Rows<ControlNode>, OutOfMemory>
    ensures { IfOk result (λ nodes. nodes ≡ nodes_of names.now statement.now) }
{
    let statements = statements_within(alloc, statement)?;
    let mut built = put_all(alloc, names, &statements)?;
    let nodes = taken_nodes(alloc, &mut built.nodes)?;
    Ok(nodes)
}
