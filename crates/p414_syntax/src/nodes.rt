// Lists of nodes, which contracts see as the tree of each node.
ghost use Rattle.std.specs.Prelude.{◌≡◌, ◌<◌, [], length, IfOk, OnErr};
ghost use Rattle.p414_syntax.specs.Tree.{ExprInOrder, StmtInOrder, expr_at, expr_of, stmt_at, stmt_of, AddsExpr, AddsStmt};

use crate::node::{ExprNode, StmtNode};
use p4x_bits::OutOfMemory;
use std::alloc::Global;
use std::marker::Model;

/// Expressions and statements, each over earlier ones. Contracts see the list of the expressions' trees and that of the statements' trees.
pub struct Nodes {
    exprs: Vec<ExprNode>,
    stmts: Vec<StmtNode>,
}

impl Drop for Nodes {
    fn drop(self) {
        let Nodes {
            exprs: _exprs,
            stmts: _stmts,
        } = self;
    }
}

impl Model for Nodes {
    ghost use Rattle.p414_syntax.specs.Tree.{Trees, trees_of, InOrder};
    ghost use Rattle.p414_syntax.specs.Code.{coded_trees};

    ghost Value = { Trees };

    ghost coded = { coded_trees };

    ghost view = { λ nodes. trees_of nodes.exprs.items nodes.stmts.items };

    ghost invariant = { λ nodes. InOrder nodes.exprs.items nodes.stmts.items };
}

impl Nodes {
    /// No expressions and no statements. It takes no memory until the first node.
    pub fn new(alloc: Global) -> Self
        ensures { result ≡ record { exprs = []; stmts = [] } }
    {
        Nodes {
            exprs: Vec::new(alloc),
            stmts: Vec::new(alloc),
        }
    }

    /// Puts one more expression over the earlier ones and gives its place. For want of memory all stays as it was, and the node is let go.
    pub fn expression(&mut self, node: ExprNode) -> Result<usize, OutOfMemory>
        requires { ExprInOrder (length self.old.exprs) node }
        ensures ok { IfOk result (λ place. AddsExpr self.old self.new place (expr_of self.old.exprs node)) }
        ensures err { OnErr result (self.new ≡ self.old) }
    {
        let place = self.exprs.len();
        self.exprs.push(node)?;
        Ok(place)
    }

    /// Puts one more statement over the earlier ones and gives its place. For want of memory all stays as it was, and the node is let go.
    pub fn statement(&mut self, node: StmtNode) -> Result<usize, OutOfMemory>
        requires { StmtInOrder (length self.old.exprs) (length self.old.stmts) node }
        ensures ok { IfOk result (λ place. AddsStmt self.old self.new place (stmt_of self.old.exprs self.old.stmts node)) }
        ensures err { OnErr result (self.new ≡ self.old) }
    {
        let place = self.stmts.len();
        self.stmts.push(node)?;
        Ok(place)
    }

    /// How many expressions there are: their places are the numbers below.
    pub fn exprs_len(&self) -> usize
        ensures { result ≡ length self.now.exprs }
    {
        self.exprs.len()
    }

    /// How many statements there are: their places are the numbers below.
    pub fn statements_len(&self) -> usize
        ensures { result ≡ length self.now.stmts }
    {
        self.stmts.len()
    }

    /// The node of the expression at a place.
    pub fn expr_node(&self, place: usize) -> &ExprNode
        requires { place < length self.now.exprs }
        ensures tree { expr_at self.now.exprs place ≡ expr_of self.now.exprs result.now }
        ensures order { ExprInOrder place result.now }
    {
        &self.exprs[place]
    }

    /// The node of the statement at a place.
    pub fn statement_node(&self, place: usize) -> &StmtNode
        requires { place < length self.now.stmts }
        ensures tree { stmt_at self.now.stmts place ≡ stmt_of self.now.exprs self.now.stmts result.now }
        ensures order { StmtInOrder (length self.now.exprs) place result.now }
    {
        &self.stmts[place]
    }
}
