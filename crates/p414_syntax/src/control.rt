// Controls (P4_14 1.0.5, "Packet Processing and Control Flow").
ghost use Rattle.std.specs.Prelude.{◌≡◌, ◌<◌, length};
ghost use Rattle.p414_syntax.specs.Tree.{stmt_at};
ghost use Rattle.p414_syntax.specs.Views.{control_tree};

use crate::heads::{StmtView, stmt_view};
use crate::nodes::Nodes;
use p4x_bits::Text;
use std::marker::Model;

/// `control NAME { STATEMENT .. }`. Contracts see its name and its body as a tree.
pub struct Control {
    name: Text,
    nodes: Nodes,
    body: usize,
}

impl Drop for Control {
    fn drop(self) {
        let Control {
            name: _name,
            nodes: _nodes,
            body: _body,
        } = self;
    }
}

impl Model for Control {
    ghost use Rattle.p414_syntax.specs.Views.{ControlTree};
    ghost use Rattle.p414_syntax.specs.Code.{coded_control};

    ghost Value = { ControlTree };

    ghost coded = { coded_control };

    ghost use Rattle.std.specs.Prelude.{◌<◌, length};
    ghost use Rattle.p414_syntax.specs.Views.{control_tree};

    ghost view = { λ c. control_tree c.name c.nodes c.body };

    ghost invariant = { λ c. c.body < length c.nodes.stmts };
}

/// The parts of a control, borrowed. The body is a place in the nodes.
#[derive(Clone, Copy, Drop)]
pub struct ControlParts<'a> {
    /// The name.
    pub name: &'a Text,
    /// The expressions and statements of the body.
    pub nodes: &'a Nodes,
    /// The place of the list of statements of the body.
    pub body: usize,
}

impl Control {
    /// A control of its parts. The body is the place of a list of statements in the nodes. It takes no memory.
    pub fn new(name: Text, nodes: Nodes, body: usize) -> Self
        requires { body < length nodes.stmts }
        ensures { result ≡ control_tree name nodes body }
    {
        Control { name, nodes, body }
    }

    /// The parts, with the body's place among the nodes.
    pub fn parts(&self) -> ControlParts<'_>
        ensures name { result.name.now ≡ self.now.name }
        ensures body { stmt_at result.nodes.now.stmts result.body ≡ self.now.body }
        ensures within { result.body < length result.nodes.now.stmts }
    {
        ControlParts {
            name: &self.name,
            nodes: &self.nodes,
            body: self.body,
        }
    }

    /// The name.
    pub fn name(&self) -> &Text
        ensures { result.now ≡ self.now.name }
    {
        &self.name
    }

    /// The list of statements of the body.
    pub fn body(&self) -> StmtView<'_>
        ensures { result ≡ self.now.body }
    {
        stmt_view(&self.nodes, self.body)
    }
}
