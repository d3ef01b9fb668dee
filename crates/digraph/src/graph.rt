// A directed graph.
ghost use Rattle.std.specs.Prelude.{◌≡◌, ℕ, ◌<◌, ◌≤◌, List, [], ◌∷◌, ◌++◌, length, OnErr, OnOk, slice_index_or, slice_range, IsTrue, MatchBool, ◌↔◌};
ghost use Rattle.digraph.specs.Graphs.{Among, IsClosed, successors, with_edge};
ghost use Rattle.digraph.specs.internal.Parts.{AreStarts, parts};

use p4x_bits::OutOfMemory;
use std::alloc::Global;
use std::marker::Model;

/// A directed graph. Its nodes are numbered from 0, and contracts see the list of each node's successors, in order.
/// It is built in one pass: each node is followed by its edges.
pub struct Digraph {
    starts: Vec<usize>,
    targets: Vec<usize>,
}

impl Drop for Digraph {
    fn drop(self) {
        let Digraph {
            starts: _starts,
            targets: _targets,
        } = self;
    }
}

impl Model for Digraph {
    ghost use Rattle.std.specs.Prelude.{ℕ, List, length};
    ghost use Rattle.digraph.specs.internal.Parts.{AreStarts, parts};

    ghost Value = { List (List ℕ) };

    ghost view = { λ g. parts g.starts.items g.targets.items };

    ghost invariant = { λ g. AreStarts g.starts.items (length g.targets.items) };
}

impl Digraph {
    /// The graph without nodes. It takes no memory until the first node.
    pub fn new(alloc: Global) -> Self
        ensures { result ≡ [] }
    {
        Digraph {
            starts: Vec::new(alloc),
            targets: Vec::new(alloc),
        }
    }

    /// A further node, with the next number and without edges. For want of memory the graph stays as it was.
    pub fn add_node(&mut self) -> Result<(), OutOfMemory>
        ensures ok { OnOk result (self.new ≡ self.old ++ [] ∷ []) }
        ensures err { OnErr result (self.new ≡ self.old) }
    {
        self.starts.push(self.targets.len())?;
        Ok(())
    }

    /// A further edge, from the last node to the target, whose node may still have to be added. For want of memory the
    /// graph stays as it was, as does the graph without nodes.
    pub fn add_edge(&mut self, target: usize) -> Result<(), OutOfMemory>
        ensures ok { OnOk result (self.new ≡ with_edge self.old target) }
        ensures err { OnErr result (self.new ≡ self.old) }
    {
        self.targets.push(target)?;
        Ok(())
    }

    /// How many nodes there are.
    pub fn len(&self) -> usize
        ensures { result ≡ length self.now }
    {
        self.starts.len()
    }

    /// The targets of a node's edges, in order.
    pub fn successors(&self, node: usize) -> &[usize]
        requires { node < length self.now }
        ensures { result.now ≡ successors self.now node }
    {
        let (start, end) = part_bounds(&self.starts, node, self.targets.len());
        &self.targets[start..end]
    }

    /// Whether each edge leads to a node of the graph.
    pub fn is_closed(&self) -> bool
        ensures { IsTrue result ↔ IsClosed self.now }
    {
        for node in 0..self.len() {
            if !all_below(self.successors(node), self.len()) {
                return false;
            }
        }
        true
    }
}

/// Whether all numbers are below the limit.
fn all_below(numbers: &[usize], limit: usize) -> bool
    ensures { MatchBool result ((b : ℕ) → Among b numbers.now → b < limit) ((b : ℕ) × Among b numbers.now × (limit ≤ b)) }
{
    for number in numbers {
        if *number >= limit {
            return false;
        }
    }
    true
}

/// Where the part at a place begins and ends.
fn part_bounds(starts: &[usize], place: usize, len: usize) -> (usize, usize)
    requires place { place < length starts.now }
    requires starts { AreStarts starts.now len }
    ensures order { result.0 ≤ result.1 }
    ensures within { result.1 ≤ len }
    ensures part { (items : List ℕ) → length items ≡ len → slice_index_or (parts starts.now items) place [] ≡ slice_range items result.0 result.1 }
{
    let end = starts.get(place + 1).copied().unwrap_or(len);
    (starts[place], end)
}
