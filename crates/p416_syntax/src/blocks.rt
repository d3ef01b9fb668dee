// Expressions and lists of statements with the nodes that they are kept in.
ghost use Rattle.std.specs.Prelude.{◌≡◌, ◌<◌, length};
ghost use Rattle.p416_syntax.specs.Tree.{exp_at, stmt_at};

use crate::nodes::Nodes;
use crate::views::{ExpView, StmtView, exp_view, stmt_view};
use std::marker::Model;

/// An expression, or an argument list (P4_16 1.2, "Expressions"). Contracts see its tree.
#[derive(Drop)]
pub struct Exp {
    nodes: Nodes,
    place: usize,
}

impl Model for Exp {
    ghost use Rattle.p416_syntax.specs.Tree.{Exp16};
    ghost use Rattle.p416_syntax.specs.Code.{coded_exp};

    ghost Value = { Exp16 };

    ghost coded = { coded_exp };

    ghost use Rattle.std.specs.Prelude.{◌<◌, length};
    ghost use Rattle.p416_syntax.specs.Tree.{exp_at};

    ghost view = { λ e. exp_at e.nodes.exps e.place };

    ghost invariant = { λ e. e.place < length e.nodes.exps };
}

/// The parts of an expression, borrowed.
#[derive(Clone, Copy, Drop)]
pub struct ExpParts<'a> {
    /// The nodes.
    pub nodes: &'a Nodes,
    /// The place of the expression among them.
    pub place: usize,
}

impl Exp {
    /// The expression at a place of the nodes. It takes no memory.
    pub fn new(nodes: Nodes, place: usize) -> Self
        requires { place < length nodes.exps }
        ensures { result ≡ exp_at nodes.exps place }
    {
        Exp { nodes, place }
    }

    /// The nodes, and the place of the expression among them.
    pub fn parts(&self) -> ExpParts<'_>
        ensures tree { exp_at result.nodes.now.exps result.place ≡ self.now }
        ensures within { result.place < length result.nodes.now.exps }
    {
        ExpParts {
            nodes: &self.nodes,
            place: self.place,
        }
    }

    /// The expression where it lies. It takes no memory.
    pub fn view(&self) -> ExpView<'_>
        ensures { result ≡ self.now }
    {
        exp_view(&self.nodes, self.place)
    }
}

/// `{ STATEMENT .. }` (P4_16 1.2, "Block statement"). Contracts see the list of its statements as a tree.
#[derive(Drop)]
pub struct Block16 {
    nodes: Nodes,
    place: usize,
}

impl Model for Block16 {
    ghost use Rattle.p416_syntax.specs.Tree.{Stmt16};
    ghost use Rattle.p416_syntax.specs.Code.{coded_stmt};

    ghost Value = { Stmt16 };

    ghost coded = { coded_stmt };

    ghost use Rattle.std.specs.Prelude.{◌<◌, length};
    ghost use Rattle.p416_syntax.specs.Tree.{stmt_at};

    ghost view = { λ b. stmt_at b.nodes.stmts b.place };

    ghost invariant = { λ b. b.place < length b.nodes.stmts };
}

/// The parts of a block, borrowed.
#[derive(Clone, Copy, Drop)]
pub struct BlockParts<'a> {
    /// The expressions and statements.
    pub nodes: &'a Nodes,
    /// The place of the list of statements among them.
    pub place: usize,
}

impl Block16 {
    /// The block of the list of statements at a place of the nodes. It takes no memory.
    pub fn new(nodes: Nodes, place: usize) -> Self
        requires { place < length nodes.stmts }
        ensures { result ≡ stmt_at nodes.stmts place }
    {
        Block16 { nodes, place }
    }

    /// The nodes, and the place of the list of statements among them.
    pub fn parts(&self) -> BlockParts<'_>
        ensures tree { stmt_at result.nodes.now.stmts result.place ≡ self.now }
        ensures within { result.place < length result.nodes.now.stmts }
    {
        BlockParts {
            nodes: &self.nodes,
            place: self.place,
        }
    }

    /// The list of statements where it lies. It takes no memory.
    pub fn statements(&self) -> StmtView<'_>
        ensures { result ≡ self.now }
    {
        stmt_view(&self.nodes, self.place)
    }
}
