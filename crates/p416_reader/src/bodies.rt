// Expressions and statements, as they are put together.
ghost use Rattle.std.specs.Prelude.{◌≡◌, OnOk, IfOk};
ghost use Rattle.p416_reader.specs.declared.parts.Parts.{Parts};
ghost use Rattle.p416_reader.specs.declared.built.Built.{Built};
ghost use Rattle.p416_reader.specs.internal.Actions.{put_body, with_bodies, first_exp, first_stmt};
ghost use Rattle.p416_reader.specs.internal.Built.{no_bodies};
ghost use Rattle.p416_reader.specs.internal.Classes.{is_type_like};
ghost use Rattle.p416_syntax.specs.Conditions.{is_call};

use crate::forest::Forest;
use crate::parts::Parts;
use crate::symbols::BodyAction;
use p4x_bits::{OutOfMemory, Text};
use p416_syntax::{Block16, CaseLabel, CastType, Exp, ExpNode, StmtNode};
use std::alloc::Global;
use std::marker::Model;

/// Stacks of expressions and statements, and whether the newest statement ends in an `if` without `else`.
pub struct Bodies {
    pub forest: Forest,
    pub is_open: bool,
}

impl Drop for Bodies {
    fn drop(self) {
        let Bodies {
            forest: _forest,
            is_open: _is_open,
        } = self;
    }
}

impl Model for Bodies {
    ghost use Rattle.p416_reader.specs.internal.Bodies as bodies;
    ghost use Rattle.std.specs.Coded.{codes};
    ghost use Rattle.p416_syntax.specs.Code.{coded_exp, coded_stmt};

    ghost Value = { bodies.Bodies };

    ghost coded = { Prim.hlevel (codes, coded_exp, coded_stmt) };

    ghost view = { λ b. record { exps = b.forest.trees.exps; stmts = b.forest.trees.stmts; is_open = b.is_open } };
}

impl Bodies {
    /// No parts. It takes no memory until the first part.
    pub fn new(alloc: Global) -> Self
        ensures { result ≡ no_bodies }
    {
        Bodies {
            forest: Forest::new(alloc),
            is_open: false,
        }
    }

    /// Lets all parts go.
    pub fn clear(&mut self, alloc: Global)
        ensures { self.new ≡ no_bodies }
    {
        self.forest.clear(alloc);
        self.is_open = false;
    }

    /// Whether the newest expression is a call.
    pub fn is_call(&self) -> bool
        ensures { result ≡ is_call (first_exp self.now.exps) }
    {
        self.forest.is_call()
    }

    /// Whether the newest expression could be a type.
    pub fn is_type_like(&self) -> bool
        ensures { result ≡ is_type_like (first_exp self.now.exps) }
    {
        self.forest.is_type_like()
    }

    /// Takes the newest expression out, and lets all other parts go.
    pub fn take_exp(&mut self, alloc: Global) -> Result<Exp, OutOfMemory>
        ensures exp { IfOk result (λ exp. exp ≡ first_exp self.old.exps) }
        ensures rest { OnOk result (self.new ≡ no_bodies) }
    {
        self.is_open = false;
        self.forest.take_out_exp(alloc)
    }

    /// Takes the newest list of statements out, and lets all other parts go.
    pub fn take_block(&mut self, alloc: Global) -> Result<Block16, OutOfMemory>
        ensures block { IfOk result (λ block. block ≡ first_stmt self.old.stmts) }
        ensures rest { OnOk result (self.new ≡ no_bodies) }
    {
        self.is_open = false;
        self.forest.take_out_block(alloc)
    }

    /// Does the action, on these parts.
    pub fn put(
        &mut self,
        alloc: Global,
        parts: &mut Parts,
        action: BodyAction,
    ) -> Result<(), OutOfMemory>
        ensures { OnOk result ((b : Built) → put_body action (with_bodies parts.old self.old b) ≡ with_bodies parts.new self.new b) }
    {
        match action {
            BodyAction::Number => self
                .forest
                .expression(ExpNode::Literal(parts.take_literal())),
            BodyAction::Truth(value) => self.forest.expression(ExpNode::Truth(value)),
            BodyAction::Error => self.forest.expression(ExpNode::Error),
            BodyAction::Name => self
                .forest
                .expression(ExpNode::Name(parts.take_name(alloc))),
            BodyAction::Member => self.forest.member(parts.take_name(alloc)),
            BodyAction::MemberLookahead => self
                .forest
                .member(Text::from_slice(alloc, b"lookahead")?),
            BodyAction::Index => self.forest.index(parts.take_literal()),
            BodyAction::Slice => {
                let low = parts.take_literal();
                let high = parts.take_literal();
                self.forest.slice(high, low)
            }
            BodyAction::NoArguments => self.forest.expression(ExpNode::NoArguments),
            BodyAction::AddArgument => self.forest.argument(),
            BodyAction::Call => self.forest.call(),
            BodyAction::Lookahead => self.forest.lookahead(parts.take_type()),
            BodyAction::CastBit => self.forest.cast(CastType::Bit(parts.take_literal())),
            BodyAction::CastBool => self.forest.cast(CastType::Bool),
            BodyAction::Unary(operator) => self.forest.unary(operator),
            BodyAction::Binary(operator) => self.forest.binary(operator),
            BodyAction::Choice => self.forest.choice(),
            BodyAction::Listed => self.forest.listed(),
            BodyAction::NoStatements => self.forest.statement(StmtNode::NoStatements),
            BodyAction::Then => self.forest.then(),
            BodyAction::NoCases => {
                self.is_open = false;
                self.forest.statement(StmtNode::NoCases)
            }
            BodyAction::CaseDefault => {
                self.is_open = false;
                self.forest.case(CaseLabel::Default)
            }
            BodyAction::CaseAction => {
                self.is_open = false;
                let label = CaseLabel::Action(parts.take_name(alloc));
                self.forest.case(label)
            }
            BodyAction::TypeOfExp => {
                let kind = self.forest.take_type(alloc)?;
                parts.types.push(kind)
            }
            BodyAction::If => {
                self.is_open = true;
                self.forest.if_then()
            }
            BodyAction::IfElse => self.forest.if_else(),
            BodyAction::Block => {
                self.is_open = false;
                self.forest.block()
            }
            BodyAction::Empty => {
                self.is_open = false;
                self.forest.statement(StmtNode::Empty)
            }
            BodyAction::Var => {
                self.is_open = false;
                let of = parts.take_type();
                let name = parts.take_name(alloc);
                self.forest.statement(StmtNode::Var(of, name))
            }
            BodyAction::VarIs => {
                self.is_open = false;
                let of = parts.take_type();
                let name = parts.take_name(alloc);
                self.forest.var_is(of, name)
            }
            BodyAction::Assign => {
                self.is_open = false;
                self.forest.assign()
            }
            BodyAction::Expression => {
                self.is_open = false;
                self.forest.expression_stmt()
            }
            BodyAction::Switch => {
                self.is_open = false;
                self.forest.switch(parts.take_name(alloc))
            }
        }
    }
}
