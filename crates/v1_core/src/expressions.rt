// Ready expressions, kept as nodes.
ghost use Rattle.std.specs.Prelude.{◌≡◌, ◌<◌, true, [], length, IfOk, IfSome};
ghost use Rattle.node_lists.specs.Trees.{Adds};
ghost use Rattle.v1_core.specs.declared.node.Content.TheVariants as content;
ghost use Rattle.v1_core.specs.Ready as ready;
ghost use Rattle.v1_core.specs.Nodes.{IsNode, ready_at, ready_of};
ghost use Rattle.v1_core.specs.Kept.{kept, trees};

use crate::checked::{is_element, is_width, is_word};
use crate::layout::FrameLayout;
use crate::node::{Content, Node};
use p4x_bits::OutOfMemory;
use std::alloc::Global;
use std::marker::Model;

/// Expressions over the frames of a layout, each kept as a node over earlier ones. They are known by their places, from 0 in
/// the order in which they were added. Slots, headers and stacks in them are those of the layout.
#[derive(Drop)]
pub struct Expressions<'l> {
    layout: &'l FrameLayout,
    nodes: Vec<Node>,
}

impl<'l> Model for Expressions<'l> {
    ghost use Rattle.v1_core.specs.Kept.{Kept, kept};
    ghost use Rattle.v1_core.specs.Nodes.{AreNodes};

    ghost Value = { Kept };

    ghost view = { λ e. kept e.layout.now e.nodes.items };

    ghost invariant = { λ e. AreNodes e.layout.now e.nodes.items };
}

impl<'l> Expressions<'l> {
    /// No expressions. It takes no memory until the first one.
    pub fn new(alloc: Global, layout: &'l FrameLayout) -> Self
        ensures { result ≡ kept layout.now [] }
    {
        Expressions {
            layout,
            nodes: Vec::new(alloc),
        }
    }

    /// Puts one more expression over the earlier ones and gives its place. The one error is want of memory.
    pub fn add(&mut self, node: Node) -> Result<usize, OutOfMemory>
        requires { IsNode self.old.layout (length self.old.nodes) node }
        ensures ok { IfOk result (λ place. Adds (trees self.old) (trees self.new) place (ready_of (trees self.old) node)) }
        ensures within { IfOk result (λ place. place < length self.new.nodes) }
        ensures layout { self.new.layout ≡ self.old.layout }
    {
        let place = self.nodes.len();
        self.nodes.push(node)?;
        Ok(place)
    }

    /// The node of the expression at a place.
    pub fn node(&self, place: usize) -> Node
        requires { place < length self.now.nodes }
        ensures tree { ready_at (trees self.now) place ≡ ready_of (trees self.now) result }
        ensures fits { IsNode self.now.layout place result }
    {
        self.nodes[place]
    }

    /// The slot that the expression at a place is, where it is seen to be one with bits; None tells nothing.
    pub fn slot(&self, place: usize) -> Option<u32>
        requires { place < length self.now.nodes }
        ensures tree { IfSome result (λ number. ready_at (trees self.now) place ≡ ready.slot content.Bits number) }
        ensures fits { IfSome result (λ number. number < length self.now.layout.widths) }
    {
        match self.node(place) {
            Node::Slot(Content::Bits, number) => Some(number),
            _ => None,
        }
    }

    /// Whether a node may be put behind the others.
    fn fits(&self, node: Node) -> bool
        ensures { result ≡ true → IsNode self.now.layout (length self.now.nodes) node }
    {
        let count = self.nodes.len();
        match node {
            Node::Number(width, number) => is_word(width, number),
            Node::Truth(_) => true,
            Node::Error(_) => true,
            Node::Slot(_, slot) => (slot as usize) < self.layout.slots(),
            Node::ElementSlot(element) => is_element(self.layout, self.layout.slots(), element),
            Node::Valid(header) => (header as usize) < self.layout.headers(),
            Node::ElementValid(element) => is_element(self.layout, self.layout.headers(), element),
            Node::Ahead(width) => is_width(width),
            Node::Slice(a, place, width) => a < count && place < 128 && is_width(width),
            Node::ToBits(width, a) => a < count && is_width(width),
            Node::ToTruth(a) => a < count,
            Node::Unary(_, a) => a < count,
            Node::And(a, b) => a < count && b < count,
            Node::Or(a, b) => a < count && b < count,
            Node::Binary(_, a, b) => a < count && b < count,
            Node::Choice(a, b, c) => a < count && b < count && c < count,
        }
    }

    /// Puts one more expression over the earlier ones and gives its place. The one error is want of memory, which a node
    /// counts as that doesn't fit: one with a slot, a header or a stack that no frame of the layout has, with an operand that
    /// isn't there, or with a number or a width that isn't one of up to 128 bits.
    pub fn put(&mut self, node: Node) -> Result<usize, OutOfMemory>
        ensures ok { IfOk result (λ place. Adds (trees self.old) (trees self.new) place (ready_of (trees self.old) node)) }
        ensures within { IfOk result (λ place. place < length self.new.nodes) }
        ensures layout { self.new.layout ≡ self.old.layout }
    {
        if self.fits(node) {
            self.add(node)
        } else {
            Err(OutOfMemory)
        }
    }
}
