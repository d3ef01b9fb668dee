// Lists of nodes, which contracts see as the tree of each node.
ghost use Rattle.std.specs.Prelude.{◌≡◌, ◌<◌, [], length, IfOk, OnErr};
ghost use Rattle.p416_syntax.specs.Tree.{ExpInOrder, StmtInOrder, exp_at, exp_of, stmt_at, stmt_of, AddsExp, AddsStmt};

use crate::node::{ExpNode, StmtNode};
use p4x_bits::OutOfMemory;
use std::alloc::Global;
use std::marker::Model;

/// Expressions and statements, each over earlier ones. Contracts see the list of the expressions' trees and that of the statements' trees.
pub struct Nodes {
    exps: Vec<ExpNode>,
    stmts: Vec<StmtNode>,
}

impl Drop for Nodes {
    fn drop(self) {
        let Nodes {
            exps: _exps,
            stmts: _stmts,
        } = self;
    }
}

impl Model for Nodes {
    ghost use Rattle.p416_syntax.specs.Tree.{Trees, trees_of, InOrder};
    ghost use Rattle.p416_syntax.specs.Code.{coded_trees};

    ghost Value = { Trees };

    ghost coded = { coded_trees };

    ghost view = { λ nodes. trees_of nodes.exps.items nodes.stmts.items };

    ghost invariant = { λ nodes. InOrder nodes.exps.items nodes.stmts.items };
}

impl Nodes {
    /// No expressions and no statements. It takes no memory until the first node.
    pub fn new(alloc: Global) -> Self
        ensures { result ≡ record { exps = []; stmts = [] } }
    {
        Nodes {
            exps: Vec::new(alloc),
            stmts: Vec::new(alloc),
        }
    }

    /// Puts one more expression over the earlier ones and gives its place. For want of memory all stays as it was, and the node is let go.
    pub fn expression(&mut self, node: ExpNode) -> Result<usize, OutOfMemory>
        requires { ExpInOrder (length self.old.exps) node }
        ensures ok { IfOk result (λ place. AddsExp self.old self.new place (exp_of self.old.exps node)) }
        ensures err { OnErr result (self.new ≡ self.old) }
    {
        let place = self.exps.len();
        self.exps.push(node)?;
        Ok(place)
    }

    /// Puts one more statement over the earlier ones and gives its place. For want of memory all stays as it was, and the node is let go.
    pub fn statement(&mut self, node: StmtNode) -> Result<usize, OutOfMemory>
        requires { StmtInOrder (length self.old.exps) (length self.old.stmts) node }
        ensures ok { IfOk result (λ place. AddsStmt self.old self.new place (stmt_of self.old.exps self.old.stmts node)) }
        ensures err { OnErr result (self.new ≡ self.old) }
    {
        let place = self.stmts.len();
        self.stmts.push(node)?;
        Ok(place)
    }

    /// How many expressions there are: their places are the numbers below.
    pub fn exps_len(&self) -> usize
        ensures { result ≡ length self.now.exps }
    {
        self.exps.len()
    }

    /// How many statements there are: their places are the numbers below.
    pub fn statements_len(&self) -> usize
        ensures { result ≡ length self.now.stmts }
    {
        self.stmts.len()
    }

    /// The node of the expression at a place.
    pub fn exp_node(&self, place: usize) -> &ExpNode
        requires { place < length self.now.exps }
        ensures tree { exp_at self.now.exps place ≡ exp_of self.now.exps result.now }
        ensures order { ExpInOrder place result.now }
    {
        &self.exps[place]
    }

    /// The node of the statement at a place.
    pub fn statement_node(&self, place: usize) -> &StmtNode
        requires { place < length self.now.stmts }
        ensures tree { stmt_at self.now.stmts place ≡ stmt_of self.now.exps self.now.stmts result.now }
        ensures order { StmtInOrder (length self.now.exps) place result.now }
    {
        &self.stmts[place]
    }
}
