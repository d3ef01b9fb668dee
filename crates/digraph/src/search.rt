// A depth-first search by paths: nodes on the path that reach each other are one component.
ghost use Rattle.std.specs.Prelude.{◌≡◌, ℕ, ◌+◌, ◌<◌, ◌≤◌, [], ◌∷◌, ◌++◌, length, drop, map, None, Some, IfOk, OnOk, MatchOption, slice_get};
ghost use Rattle.digraph.specs.Graphs.{Among, IsClosed, successors, IsEdge};
ghost use Rattle.digraph.specs.internal.Search.{State, AreWaiting, Searching, IsListed, IsTurn, IsVisit, HasLeft, came_to, closed, entered, fresh, led_by, number_of, up_to};

use crate::graph::Digraph;
use crate::stack::Stack;
use p4x_bits::OutOfMemory;
use std::alloc::Global;
use std::marker::Model;

/// How far the search has come at a node.
#[derive(Clone, Copy)]
pub enum Mark {
    /// It isn't reached.
    New,
    /// It is reached, and its component isn't whole. So many nodes of such components were reached before it.
    Open(usize),
    /// Its component is whole, and has this number.
    Done(usize),
}

/// A node on the path, and how many of its edges are left, the first ones.
#[derive(Clone, Copy)]
pub struct Frame {
    pub node: usize,
    pub left: usize,
}

pub struct Search {
    marks: Vec<Mark>,
    waiting: Stack<usize>,
    begins: Stack<usize>,
    path: Stack<Frame>,
    order: Vec<usize>,
    count: usize,
}

impl Drop for Search {
    fn drop(self) {
        let Search {
            marks: _marks,
            waiting: _waiting,
            begins: _begins,
            path: _path,
            order: _order,
            count: _count,
        } = self;
    }
}

impl Model for Search {
    ghost use Rattle.digraph.specs.internal.Search.{State};

    ghost Value = { State };

    ghost view = { λ s. record { marks = s.marks.items; waiting = s.waiting; begins = s.begins; path = s.path; order = s.order.items; count = s.count } };
}

/// Takes the numbers in front off that are greater than this one.
fn drop_greater(numbers: &mut Stack<usize>, most: usize)
    ensures { numbers.new ≡ up_to most numbers.old }
{
    while let Some(number) = numbers.front()
        && number > most
    {
        numbers.pop();
    }
}

impl Search {
    /// No node is reached.
    pub fn new(alloc: Global, nodes: usize) -> Result<Self, OutOfMemory>
        ensures { IfOk result (λ search. search ≡ fresh nodes) }
    {
        Ok(Search {
            marks: vec![in alloc; Mark::New; nodes]?,
            waiting: Stack::new(alloc),
            begins: Stack::new(alloc),
            path: Stack::new(alloc),
            order: Vec::new(alloc),
            count: 0,
        })
    }

    /// Reaches a new node, which has so many edges.
    fn enter(&mut self, node: usize, edges: usize) -> Result<(), OutOfMemory>
        requires { node < length self.old.marks }
        ensures { OnOk result (self.new ≡ entered self.old node edges) }
    {
        let place = self.waiting.len();
        self.waiting.push(node)?;
        self.begins.push(place)?;
        self.path.push(Frame { node, left: edges })?;
        self.marks[node] = Mark::Open(place);
        Ok(())
    }

    /// Closes the last component, which begins at a place.
    fn close(&mut self, begin: usize) -> Result<(), OutOfMemory>
        requires waiting { AreWaiting self.old.marks self.old.waiting }
        requires few { self.old.count ≤ length self.old.order }
        requires begin { begin < length self.old.waiting }
        ensures { OnOk result (self.new ≡ closed self.old begin) }
    {
        while let Some(node) = self.waiting.pop_beyond(begin) {
            self.marks[node] = Mark::Done(self.count);
            self.order.push(node)?;
        }
        self.begins.pop();
        self.count += 1;
        Ok(())
    }

    /// Leaves a node whose edges were all taken. Where its component begins with it, that component is whole.
    fn leave(&mut self, frame: Frame) -> Result<(), OutOfMemory>
        requires waiting { AreWaiting self.old.marks self.old.waiting }
        requires few { self.old.count ≤ length self.old.order }
        requires is_open { (p : ℕ) × (slice_get self.old.marks frame.node ≡ Some (Mark.Open p)) }
        ensures { OnOk result (HasLeft self.old frame.node self.new) }
    {
        let Mark::Open(place) = self.marks[frame.node] else {
            return Ok(());
        };
        let Some(begin) = self.begins.front() else {
            return Ok(());
        };
        if begin == place {
            self.close(place)
        } else {
            Ok(())
        }
    }

    /// Comes to a node, from the top of the path or to begin with.
    fn come_to(&mut self, graph: &Digraph, node: usize) -> Result<(), OutOfMemory>
        requires marks { node < length self.old.marks }
        requires node { node < length graph.now }
        ensures { OnOk result (self.new ≡ came_to self.old node (length (successors graph.now node))) }
    {
        match self.marks[node] {
            Mark::New => self.enter(node, graph.successors(node).len()),
            Mark::Open(place) => {
                drop_greater(&mut self.begins, place);
                Ok(())
            }
            Mark::Done(_) => Ok(()),
        }
    }

    /// Takes the last of a node's edges that are left.
    fn take_edge(&mut self, graph: &Digraph, frame: Frame) -> Result<(), OutOfMemory>
        requires searching { Searching graph.now None (led_by frame self.old) }
        requires listed { IsListed self.old }
        requires closed { IsClosed graph.now }
        requires left { 0 < frame.left }
        ensures { OnOk result (IsTurn graph.now (led_by frame self.old) self.new) }
    {
        let left = frame.left - 1;
        let target = graph.successors(frame.node)[left];
        self.path.push(Frame {
            node: frame.node,
            left,
        })?;
        self.come_to(graph, target)
    }

    /// Takes the last node off the path, if there is one.
    fn next_frame(&mut self) -> Option<Frame>
        ensures { MatchOption result ((self.old.path ≡ []) × (self.new ≡ self.old)) (λ f. self.old ≡ led_by f self.new) }
    {
        self.path.pop()
    }

    /// Searches from a node, unless it was reached before.
    pub fn visit(&mut self, graph: &Digraph, root: usize) -> Result<(), OutOfMemory>
        requires searching { Searching graph.now None self.old }
        requires listed { IsListed self.old }
        requires ended { self.old.path ≡ [] }
        requires closed { IsClosed graph.now }
        requires root { root < length graph.now }
        ensures visit { OnOk result (IsVisit graph.now self.old self.new root) }
        ensures ended { OnOk result (self.new.path ≡ []) }
    {
        self.come_to(graph, root)?;
        while let Some(frame) = self.next_frame() {
            if frame.left == 0 {
                self.leave(frame)?;
            } else {
                self.take_edge(graph, frame)?;
            }
        }
        Ok(())
    }

    /// The numbers of the nodes' components, the nodes in order, and how many components there are.
    pub fn finish(self, alloc: Global) -> Result<(Vec<usize>, Vec<usize>, usize), OutOfMemory>
        ensures { IfOk result (λ found. (found.0.items ≡ map number_of self.marks) × (found.1.items ≡ self.order) × (found.2 ≡ self.count)) }
    {
        let numbers = self.marks.iter().map(|mark| number(*mark)).collect(alloc)?;
        let Search {
            marks: _marks,
            waiting: _waiting,
            begins: _begins,
            path: _path,
            order,
            count,
        } = self;
        Ok((numbers, order, count))
    }
}

/// The number of a whole component, else 0.
fn number(mark: Mark) -> usize
    ensures { result ≡ number_of mark }
{
    match mark {
        Mark::Done(number) => number,
        _ => 0,
    }
}
