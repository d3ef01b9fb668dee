// The marks of a graph without cycles, the least one of a free node first.
ghost use Rattle.std.specs.Prelude.{◌≡◌, ℕ, ◌+◌, ◌<◌, ◌≤◌, [], ◌∷◌, ◌++◌, List, Some, None, length, slice_index, IfOk, OnOk, MatchOption};
ghost use Rattle.digraph.specs.Graphs.{Among, IsEdge};
ghost use Rattle.least_order.specs.Orders.{IsLeastOrder};
ghost use Rattle.least_order.specs.internal.Counts.{occurs, owing};
ghost use Rattle.least_order.specs.internal.Listing.{IsMark, IsMarked, IsStart, IsTaken, MarkReaches, Progress, begun, looked_at, mark_of, paid, paid_all, released};

use crate::rows::Successors;
use p4x_bits::OutOfMemory;
use std::alloc::Global;
use std::collections::BTreeSet;
use std::marker::Model;

/// How far a listing has come.
struct Listing {
    /// How many edges lead to each node from nodes that weren't taken.
    owed: Vec<usize>,
    /// Free nodes without a mark.
    gates: Vec<usize>,
    /// The marks of free nodes.
    ready: BTreeSet<usize>,
    /// The marks of the nodes that were taken, in order.
    order: Vec<usize>,
}

impl Drop for Listing {
    fn drop(self) {
        let Listing {
            owed: _owed,
            gates: _gates,
            ready: _ready,
            order: _order,
        } = self;
    }
}

impl Model for Listing {
    ghost use Rattle.least_order.specs.internal.Listing.{Progress};

    ghost Value = { Progress };

    ghost view = { λ l. record { owed = l.owed.items; gates = l.gates.items; ready = l.ready.keys; order = l.order.items } };
}

/// Counts these edges.
fn count_all(owed: &mut Vec<usize>, targets: &[usize]) -> Result<(), OutOfMemory>
    requires { (b : ℕ) → Among b targets.now → b < length owed.old.items }
    ensures len { length owed.new.items ≡ length owed.old.items }
    ensures counted { OnOk result ((b : ℕ) → b < length owed.old.items → slice_index owed.new.items b ≡ slice_index owed.old.items b + occurs b targets.now) }
{
    for node in targets {
        owed[*node] = owed[*node].checked_add(1).ok_or(OutOfMemory)?;
    }
    Ok(())
}

impl Listing {
    /// Nothing is taken yet.
    fn new(alloc: Global, edges: &Successors) -> Result<Self, OutOfMemory>
        requires { (a b : ℕ) → IsEdge edges.now a b → b < length edges.now }
        ensures { IfOk result (λ listing. IsStart edges.now listing) }
    {
        let mut owed = vec![in alloc; 0usize; edges.len()]?;
        for node in 0..edges.len() {
            count_all(&mut owed, edges.of(node))?;
        }
        Ok(Listing {
            owed,
            gates: Vec::new(alloc),
            ready: BTreeSet::new(alloc),
            order: Vec::new(alloc),
        })
    }

    /// A node is free.
    fn release(&mut self, node: usize, mark: Option<usize>) -> Result<(), OutOfMemory>
        ensures { OnOk result (self.new ≡ released self.old node mark) }
    {
        match mark {
            None => self.gates.push(node)?,
            Some(label) => {
                self.ready.insert(label)?;
            }
        }
        Ok(())
    }

    /// A node is looked at before any is taken: if no edge leads to it, it is free.
    fn look_at(&mut self, node: usize, marks: &[Option<usize>]) -> Result<(), OutOfMemory>
        requires owed { node < length self.old.owed }
        requires marks { node < length marks.now }
        ensures { OnOk result (self.new ≡ looked_at marks.now self.old node) }
    {
        if self.owed[node] == 0 {
            self.release(node, marks[node])
        } else {
            Ok(())
        }
    }

    /// Nodes to which no edge leads are free.
    fn begin(&mut self, marks: &[Option<usize>]) -> Result<(), OutOfMemory>
        requires { length marks.now ≤ length self.old.owed }
        ensures { OnOk result (self.new ≡ begun marks.now self.old (length marks.now)) }
    {
        for node in 0..marks.len() {
            self.look_at(node, marks)?;
        }
        Ok(())
    }

    /// One edge to a node is taken.
    fn pay(&mut self, node: usize, marks: &[Option<usize>]) -> Result<(), OutOfMemory>
        requires owed { node < length self.old.owed }
        requires marks { node < length marks.now }
        ensures { OnOk result (self.new ≡ paid marks.now self.old node) }
    {
        let owed = self.owed[node].saturating_sub(1);
        self.owed[node] = owed;
        if owed == 0 {
            self.release(node, marks[node])
        } else {
            Ok(())
        }
    }

    /// These edges are taken.
    fn pay_all(&mut self, targets: &[usize], marks: &[Option<usize>]) -> Result<(), OutOfMemory>
        requires owed { (b : ℕ) → Among b targets.now → b < length self.old.owed }
        requires marks { (b : ℕ) → Among b targets.now → b < length marks.now }
        ensures { OnOk result (self.new ≡ paid_all marks.now self.old targets.now) }
    {
        for node in targets {
            self.pay(*node, marks)?;
        }
        Ok(())
    }

    /// The next node to be taken: one without a mark, else the one with the least mark, which is listed.
    fn next_node(&mut self, homes: &[usize]) -> Result<Option<usize>, OutOfMemory>
        requires { (x : ℕ) → Among x self.old.ready → x < length homes.now }
        ensures { IfOk result (λ found. MatchOption found ((self.new ≡ self.old) × (self.old.gates ≡ []) × (self.old.ready ≡ [])) (λ node. IsTaken homes.now self.old self.new node)) }
    {
        if let Some(node) = self.gates.pop() {
            return Ok(Some(node));
        }
        let Some(label) = self.ready.pop_first() else {
            return Ok(None);
        };
        self.order.push(label)?;
        Ok(Some(homes[label]))
    }

    /// The marks in order, by value. It takes no memory.
    fn into_order(self) -> Vec<usize>
        ensures { result.items ≡ self.order }
    {
        let Listing {
            owed: _owed,
            gates: _gates,
            ready: _ready,
            order,
        } = self;
        order
    }
}

/// The least order of the marks of a graph without cycles that keeps each walk's order. `homes` has the node that has a
/// mark.
pub fn list_marks(
    alloc: Global,
    edges: &Successors,
    marks: &[Option<usize>],
    homes: &[usize],
) -> Result<Vec<usize>, OutOfMemory>
    requires { IsMarked edges.now marks.now homes.now }
    ensures { IfOk result (λ order. IsLeastOrder (IsMark edges.now marks.now) (MarkReaches edges.now marks.now) order.items) }
{
    let mut listing = Listing::new(alloc, edges)?;
    listing.begin(marks)?;
    while let Some(node) = listing.next_node(homes)? {
        listing.pay_all(edges.of(node), marks)?;
    }
    Ok(listing.into_order())
}
