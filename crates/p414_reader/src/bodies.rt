// Expressions and controls, as they are put together.
ghost use Rattle.std.specs.Prelude.{◌≡◌, [], ◌∷◌, OnOk};
ghost use Rattle.predictive_parser.specs.Values.{newest, extended};
ghost use Rattle.p414_reader.specs.declared.symbols.BodyAction.TheVariants as BodyAction;
ghost use Rattle.p414_reader.specs.internal.Classes.{may_follow};
ghost use Rattle.p414_reader.specs.internal.Actions.{put_body, label_of, with_no_else, with_bodies};
ghost use Rattle.p414_reader.specs.declared.parts.Parts.{Parts};
ghost use Rattle.p414_reader.specs.declared.built.Built.{Built};
ghost use Rattle.p414_reader.specs.internal.Built.{no_bodies};

use crate::forest::Forest;
use crate::labels::Labels;
use crate::parts::Parts;
use crate::symbols::BodyAction;
use p4x_bits::{OutOfMemory, Text};
use p414_syntax::{ExprNode, Keyword, Label, StmtNode};
use predictive_parser::ValueStack;
use std::alloc::Global;
use std::marker::Model;

/// Stacks of the parts of expressions and controls, of the declaration that is read.
pub struct Bodies {
    pub forest: Forest,
    pub labels: ValueStack<Labels>,
    pub else_calls: ValueStack<bool>,
}

impl Drop for Bodies {
    fn drop(self) {
        let Bodies {
            forest: _forest,
            labels: _labels,
            else_calls: _else_calls,
        } = self;
    }
}

impl Model for Bodies {
    ghost use Rattle.p414_reader.specs.internal.Bodies as bodies;
    ghost use Rattle.std.specs.Coded.{codes};
    ghost use Rattle.p414_syntax.specs.Code.{coded_expr, coded_stmt, coded_tail};

    ghost Value = { bodies.Bodies };

    ghost coded = { Prim.hlevel (codes, coded_expr, coded_stmt, coded_tail) };

    ghost view = { λ b. record {
      exprs = b.forest.trees.exprs;
      tails = b.forest.trees.tails;
      stmts = b.forest.trees.stmts;
      labels = b.labels;
      else_calls = b.else_calls;
    } };
}

impl Bodies {
    /// No parts. It takes no memory until the first part.
    pub fn new(alloc: Global) -> Self
        ensures { result ≡ no_bodies }
    {
        Bodies {
            forest: Forest::new(alloc),
            labels: ValueStack::new(alloc),
            else_calls: ValueStack::new(alloc),
        }
    }

    /// Lets all parts go.
    pub fn clear(&mut self, alloc: Global)
        ensures { self.new ≡ no_bodies }
    {
        *self = Bodies::new(alloc);
    }

    /// Whether the label may stand behind those of the newest list of branches.
    pub fn may_follow(&self, text: &[u8]) -> bool
        ensures { result ≡ may_follow (newest [] self.now.labels) text.now }
    {
        match self.labels.newest() {
            Some(labels) => labels.may_follow(text),
            None => true,
        }
    }

    /// Puts a label behind those of the newest list of branches.
    pub fn add_label(&mut self, alloc: Global, text: &[u8]) -> Result<(), OutOfMemory>
        ensures { OnOk result (self.new ≡ record self.old { labels = extended (text.now ∷ []) self.old.labels }) }
    {
        let labels = self.labels.pop_or(Labels::new(alloc));
        let labels = labels.with(alloc, text)?;
        self.labels.push(labels)
    }

    /// Does the action, on these parts.
    pub fn put(
        &mut self,
        alloc: Global,
        parts: &mut Parts,
        action: BodyAction,
    ) -> Result<(), OutOfMemory>
        ensures { OnOk result ((b : Built) → put_body action (with_bodies parts.old self.old b) ≡ with_bodies parts.new self.new b) }
    {
        match action {
            BodyAction::Number => {
                let node = ExprNode::Number(parts.take_literal());
                self.forest.expression(node)
            }
            BodyAction::Truth(value) => self.forest.expression(ExprNode::Truth(value)),
            BodyAction::Valid => {
                let node = ExprNode::Valid(parts.take_instance(alloc));
                self.forest.expression(node)
            }
            BodyAction::Field => {
                let node = ExprNode::Field(parts.take_field(alloc));
                self.forest.expression(node)
            }
            BodyAction::Parenthesized => self.forest.parenthesized(),
            BodyAction::Unary(operator) => self.forest.unary(operator),
            BodyAction::Binary(operator) => self.forest.binary(operator),
            BodyAction::NoTails => self.forest.open_tails(alloc),
            BodyAction::AddLength => self.forest.add_length(alloc),
            BodyAction::AddMaxLength => self.forest.add_max_length(alloc),
            BodyAction::NoStatements => self.forest.statement(StmtNode::NoStatements),
            BodyAction::AddCall => {
                let node = StmtNode::Call(parts.take_name(alloc));
                self.forest.add_statement(node)
            }
            BodyAction::AddCallOf(word) => {
                let node = StmtNode::Call(word.to_text(alloc)?);
                self.forest.add_statement(node)
            }
            BodyAction::AddApply => {
                let node = StmtNode::Apply(parts.take_name(alloc));
                self.forest.add_statement(node)
            }
            BodyAction::NoBranches => self.no_branches(alloc),
            BodyAction::AddBranch => self.forest.branch(label_of(parts.take_name(alloc))),
            BodyAction::AddApplyBranches => self.add_apply_branches(alloc, parts),
            BodyAction::NoElse => self.no_else(false),
            BodyAction::NoElseThenCall => self.no_else(true),
            BodyAction::ElseBlock => self.else_block(),
            BodyAction::ElseIf => self.else_if(),
            BodyAction::AddIf => self.add_if(alloc),
        }
    }

    /// Begins a list of branches.
    fn no_branches(&mut self, alloc: Global) -> Result<(), OutOfMemory>
        ensures { OnOk result ((p : Parts) (b : Built) → put_body BodyAction.NoBranches (with_bodies p self.old b) ≡ with_bodies p self.new b) }
    {
        self.forest.statement(StmtNode::NoBranches)?;
        self.labels.push(Labels::new(alloc))
    }

    /// Puts `apply` of the newest name, with the newest branches, into the newest list of statements.
    fn add_apply_branches(&mut self, alloc: Global, parts: &mut Parts) -> Result<(), OutOfMemory>
        ensures { OnOk result ((b : Built) → put_body BodyAction.AddApplyBranches (with_bodies parts.old self.old b) ≡ with_bodies parts.new self.new b) }
    {
        let _ = self.labels.pop_or(Labels::new(alloc));
        let table = parts.take_name(alloc);
        self.forest.apply_branches(table)?;
        self.forest.then()
    }

    /// Nothing stands behind the block, and then a control `else` is called or not.
    fn no_else(&mut self, is_called: bool) -> Result<(), OutOfMemory>
        ensures { OnOk result ((p : Parts) (b : Built) → with_no_else is_called (with_bodies p self.old b) ≡ with_bodies p self.new b) }
    {
        self.forest.statement(StmtNode::NoElse)?;
        self.else_calls.push(is_called)
    }

    /// `else` before the newest list of statements, with no call of a control `else` behind it.
    fn else_block(&mut self) -> Result<(), OutOfMemory>
        ensures { OnOk result ((p : Parts) (b : Built) → put_body BodyAction.ElseBlock (with_bodies p self.old b) ≡ with_bodies p self.new b) }
    {
        self.forest.else_block()?;
        self.else_calls.push(false)
    }

    /// `else` before an `if` statement of the newest condition, block and what stands behind the block.
    fn else_if(&mut self) -> Result<(), OutOfMemory>
        ensures { OnOk result ((p : Parts) (b : Built) → put_body BodyAction.ElseIf (with_bodies p self.old b) ≡ with_bodies p self.new b) }
    {
        self.forest.if_then()?;
        self.forest.else_if()
    }

    /// Puts the `if` statement into the newest list of statements, and behind it the call of a control `else` where
    /// one is called.
    fn add_if(&mut self, alloc: Global) -> Result<(), OutOfMemory>
        ensures { OnOk result ((p : Parts) (b : Built) → put_body BodyAction.AddIf (with_bodies p self.old b) ≡ with_bodies p self.new b) }
    {
        self.forest.if_then()?;
        self.forest.then()?;
        let is_called = self.else_calls.pop_or(false);
        self.forest.else_call(alloc, is_called)
    }
}

/// An action's name, or a word of its own.
fn label_of(name: Text) -> Label
    ensures { result ≡ label_of name }
{
    if Keyword::Hit.text() == name.as_slice() {
        Label::Hit
    } else if Keyword::Miss.text() == name.as_slice() {
        Label::Miss
    } else if Keyword::Default.text() == name.as_slice() {
        Label::Default
    } else {
        Label::Action(name)
    }
}
