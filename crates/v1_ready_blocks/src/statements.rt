// Ready statements, kept as nodes.
ghost use Rattle.std.specs.Prelude.{◌≡◌, ◌<◌, true, [], List, length, IfOk, OnOk, OnErr};
ghost use Rattle.node_lists.specs.Trees.{Adds};
ghost use Rattle.v1_core.specs.Ready.{Ready};
ghost use Rattle.v1_ready_blocks.specs.Nodes.{IsArgument, IsExtern, IsIncoming, IsNode, IsOutgoing, IsSource, IsStatement, IsTest, at, tree_of, trees};
ghost use Rattle.v1_ready_blocks.specs.Kept.{kept, needed, needed_by, over, over_node};

use crate::checked::{
    is_counter, is_header_place, is_meter, is_range, is_range_place, is_register, is_single,
    is_slice, is_slot, is_slot_place, is_target,
};
use crate::externs::Extern;
use crate::nodes::{
    ArgumentNode, IncomingNode, Node, OutgoingNode, SourceNode, StatementNode, TestNode,
};
use p4x_bits::OutOfMemory;
use state_store::Shape;
use std::alloc::Global;
use std::marker::Model;
use v1_core::FrameLayout;

/// How many expressions there are at least, with the one that a node of an expression names.
fn needed_by(node: TestNode, expressions: usize) -> Result<usize, OutOfMemory>
    ensures { IfOk result (λ count. count ≡ needed_by node expressions) }
{
    match node {
        TestNode::Plain(e) => {
            let count = e.checked_add(1).ok_or(OutOfMemory)?;
            Ok(expressions.max(count))
        }
        _ => Ok(expressions),
    }
}

/// How many expressions there are at least, with the one that a node names.
fn needed(node: Node, expressions: usize) -> Result<usize, OutOfMemory>
    ensures { IfOk result (λ count. count ≡ needed node expressions) }
{
    match node {
        Node::Test(node) => Ok(needed_by(node, expressions)?),
        _ => Ok(expressions),
    }
}

/// Statements over the frames of a layout and the objects of a program, each kept as a node over earlier ones and over
/// expressions, which stand by themselves. They are known by their places, from 0 in the order in which they were added.
pub struct Statements<'l> {
    layout: &'l FrameLayout,
    shapes: Vec<Shape>,
    expressions: usize,
    nodes: Vec<Node>,
}

impl Drop for Statements<'_> {
    fn drop(self) {
        let Statements {
            layout: _layout,
            shapes: _shapes,
            expressions: _expressions,
            nodes: _nodes,
        } = self;
    }
}

impl<'l> Model for Statements<'l> {
    ghost use Rattle.v1_ready_blocks.specs.Nodes.{AreNodes};
    ghost use Rattle.v1_ready_blocks.specs.Kept.{Kept, kept};

    ghost Value = { Kept };

    ghost view = { λ s. kept (record { layout = s.layout.now; shapes = s.shapes.items; expressions = s.expressions }) s.nodes.items };

    ghost invariant = { λ s. AreNodes (record { layout = s.layout.now; shapes = s.shapes.items; expressions = s.expressions }) s.nodes.items };
}

impl<'l> Statements<'l> {
    /// No statements, over the frames of a layout and objects of these shapes. The one error is want of memory.
    pub fn new(
        alloc: Global,
        layout: &'l FrameLayout,
        shapes: &[Shape],
    ) -> Result<Self, OutOfMemory>
        ensures { IfOk result (λ s. s ≡ kept (record { layout = layout.now; shapes = shapes.now; expressions = 0 }) []) }
    {
        Ok(Statements {
            layout,
            shapes: Vec::from_slice(alloc, shapes)?,
            expressions: 0,
            nodes: Vec::new(alloc),
        })
    }

    /// The node at a place.
    pub fn node(&self, place: usize) -> Node
        requires { place < length self.now.nodes }
        ensures tree { (es : List Ready) → at (trees es self.now.nodes) place ≡ tree_of es (trees es self.now.nodes) result }
        ensures fits { IsNode self.now.ground place result }
    {
        self.nodes[place]
    }

    /// The node at a place, lent.
    pub fn node_at(&self, place: usize) -> &Node
        requires { place < length self.now.nodes }
        ensures tree { (es : List Ready) → at (trees es self.now.nodes) place ≡ tree_of es (trees es self.now.nodes) result.now }
        ensures fits { IsNode self.now.ground place result.now }
    {
        &self.nodes[place]
    }

    /// Whether a node of an expression may be put behind the others, where there are so many expressions.
    fn fits_test(&self, expressions: usize, node: TestNode) -> bool
        ensures { result ≡ true → IsTest expressions (length self.now.nodes) node }
    {
        let count = self.nodes.len();
        match node {
            TestNode::Plain(e) => e < expressions,
            TestNode::Hits(_) => true,
            TestNode::Misses(_) => true,
            TestNode::Alone(single, a) => is_single(single) && a < count,
            TestNode::Both(a, b) => a < count && b < count,
            TestNode::Either(a, b) => a < count && b < count,
            TestNode::Pair(_, a, b) => a < count && b < count,
            TestNode::Choice(c, a, b) => c < count && a < count && b < count,
        }
    }

    /// Whether a node of what is read whole may be put behind the others.
    fn fits_source(&self, node: SourceNode) -> bool
        ensures { result ≡ true → IsSource self.now.ground.layout (length self.now.nodes) node }
    {
        let count = self.nodes.len();
        match node {
            SourceNode::Parts(place) => is_range_place(self.layout, place),
            SourceNode::Chosen(c, a, b) => c < count && a < count && b < count,
        }
    }

    /// Whether a node of arguments may be put behind the others.
    fn fits_argument(&self, node: ArgumentNode) -> bool
        ensures { result ≡ true → IsArgument (length self.now.nodes) node }
    {
        let count = self.nodes.len();
        match node {
            ArgumentNode::Nothing => true,
            ArgumentNode::Value(a, rest) => a < count && rest < count,
            ArgumentNode::Item(a, rest) => a < count && rest < count,
        }
    }

    /// Whether a node of what parameters start with may be put behind the others.
    fn fits_incoming(&self, node: IncomingNode) -> bool
        ensures { result ≡ true → IsIncoming self.now.ground.layout (length self.now.nodes) node }
    {
        let count = self.nodes.len();
        match node {
            IncomingNode::Nothing => true,
            IncomingNode::Value(to, a, rest) => {
                is_slot(self.layout, to) && a < count && rest < count
            }
            IncomingNode::Parts(to, a, rest) => {
                is_range(self.layout, to) && a < count && rest < count
            }
            IncomingNode::Zero(to, rest) => is_range(self.layout, to) && rest < count,
        }
    }

    /// Whether a node of parameters that go back may be put behind the others.
    fn fits_outgoing(&self, node: OutgoingNode) -> bool
        ensures { result ≡ true → IsOutgoing self.now.ground.layout (length self.now.nodes) node }
    {
        let count = self.nodes.len();
        match node {
            OutgoingNode::Nothing => true,
            OutgoingNode::Value(from, to, rest) => {
                is_slot(self.layout, from) && is_target(self.layout, to) && rest < count
            }
            OutgoingNode::Parts(from, to, rest) => {
                is_range(self.layout, from) && is_range(self.layout, to) && rest < count
            }
        }
    }

    /// Whether an extern has objects and targets that are there.
    fn fits_extern(&self, what: Extern) -> bool
        ensures { result ≡ true → IsExtern self.now.ground.layout self.now.ground.shapes what }
    {
        match what {
            Extern::Count(object, length) => {
                is_counter(&self.shapes, object) && is_slot(self.layout, length)
            }
            Extern::CountEntry(object, length) => {
                is_counter(&self.shapes, object) && is_slot(self.layout, length)
            }
            Extern::Read(object, to) => {
                is_register(&self.shapes, object) && is_target(self.layout, to)
            }
            Extern::Write(object) => is_register(&self.shapes, object),
            Extern::ExecuteMeter(object, to) => {
                is_meter(&self.shapes, object) && is_target(self.layout, to)
            }
            Extern::Hash(_, to) => is_target(self.layout, to),
            Extern::MarkToDrop(slot) => is_slot(self.layout, slot),
            Extern::Verify(_, _, slot) => is_slot(self.layout, slot),
            Extern::Update(_, _, to) => is_target(self.layout, to),
            Extern::Clone(..) => true,
            Extern::Request(..) => true,
        }
    }

    /// Whether a node of a statement may be put behind the others.
    fn fits_statement(&self, node: StatementNode) -> bool
        ensures { result ≡ true → IsStatement self.now.ground.layout self.now.ground.shapes (length self.now.nodes) node }
    {
        let count = self.nodes.len();
        match node {
            StatementNode::Nothing => true,
            StatementNode::Sequence(a, b) => a < count && b < count,
            StatementNode::Start(range) => is_range(self.layout, range),
            StatementNode::Assign(to, slice, a) => {
                is_slot_place(self.layout, to) && is_slice(slice) && a < count
            }
            StatementNode::AssignParts(to, a) => is_range_place(self.layout, to) && a < count,
            StatementNode::SetValid(header, _) => is_header_place(self.layout, header),
            StatementNode::PushFront(stack, _) => is_range(self.layout, stack),
            StatementNode::PopFront(stack, _) => is_range(self.layout, stack),
            StatementNode::Extract(header) => is_header_place(self.layout, header),
            StatementNode::Emit(a) => a < count,
            StatementNode::Execute(what, a) => self.fits_extern(what) && a < count,
            StatementNode::Apply(_) => true,
            StatementNode::LetGo(a) => a < count,
            StatementNode::Call(_, _, a, b) => a < count && b < count,
            StatementNode::Branch(c, a, b) => c < count && a < count && b < count,
            StatementNode::Switch(_, a) => a < count,
            StatementNode::Labelled(_, a, b) => a < count && b < count,
            StatementNode::Otherwise(a) => a < count,
        }
    }

    /// Whether a node may be put behind the others, where there are so many expressions.
    fn fits(&self, expressions: usize, node: Node) -> bool
        ensures { result ≡ true → IsNode (over expressions self.now.ground) (length self.now.nodes) node }
    {
        match node {
            Node::Test(node) => self.fits_test(expressions, node),
            Node::Source(node) => self.fits_source(node),
            Node::Argument(node) => self.fits_argument(node),
            Node::Incoming(node) => self.fits_incoming(node),
            Node::Outgoing(node) => self.fits_outgoing(node),
            Node::Statement(node) => self.fits_statement(node),
        }
    }

    /// Puts one more node behind the earlier ones and gives its place. An expression that it names counts as being there from
    /// then on. The one error is want of memory, which a node counts as that doesn't fit: one that names a part of a frame, an
    /// object or an earlier node that isn't there, or a width or a place past 128 bits. After it the statements are as they
    /// were.
    pub fn put(&mut self, node: Node) -> Result<usize, OutOfMemory>
        ensures ok { IfOk result (λ place. (es : List Ready) → Adds (trees es self.old.nodes) (trees es self.new.nodes) place (tree_of es (trees es self.old.nodes) node)) }
        ensures within { IfOk result (λ place. place < length self.new.nodes) }
        ensures ground { OnOk result (self.new.ground ≡ over_node node self.old.ground) }
        ensures err { OnErr result (self.new ≡ self.old) }
    {
        let expressions = needed(node, self.expressions)?;
        if !self.fits(expressions, node) {
            return Err(OutOfMemory);
        }
        let place = self.nodes.len();
        self.nodes.push(node)?;
        self.expressions = expressions;
        Ok(place)
    }
}
