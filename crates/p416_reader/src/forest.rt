// Expressions and statements over earlier ones, as they are put together.
ghost use Rattle.std.specs.Prelude.{◌≡◌, [], ◌∷◌, ◌<◌, length, IfOk, OnOk};
ghost use Rattle.p416_syntax.specs.Tree as tree;
ghost use Rattle.p416_syntax.specs.Tree.{exp_at, exp_of, stmt_of, ExpInOrder, StmtInOrder};
ghost use Rattle.predictive_parser.specs.Values.{older};
ghost use Rattle.p416_reader.specs.internal.Actions.{on_exp, on_exps, on_stmt, on_stmts, first_exp, first_stmt, name_of, type_of};
ghost use Rattle.p416_reader.specs.internal.Classes.{is_plain_name, is_type_like};
ghost use Rattle.p416_syntax.specs.Conditions.{is_call};
ghost use Rattle.p416_reader.specs.internal.Forest.{TakesExp, TakesStmt};

use p4x_bits::{OutOfMemory, Text};
use p416_syntax::{
    BinaryOperator, Block16, CaseLabel, CastType, Exp, ExpNode, Literal16, Nodes, StmtNode, Type16,
    UnaryOperator,
};
use predictive_parser::ValueStack;
use std::alloc::Global;
use std::marker::Model;
use std::mem;

/// Stacks of expressions and statements, by the places of their nodes. Contracts see the trees, and the nodes that they
/// are made of.
#[derive(Drop)]
pub struct Forest {
    nodes: Nodes,
    exps: ValueStack<usize>,
    stmts: ValueStack<usize>,
}

impl Model for Forest {
    ghost use Rattle.p416_reader.specs.internal.Forest.{Rooted, forest_of, StandIn};
    ghost use Rattle.std.specs.Coded.{codes};
    ghost use Rattle.p416_syntax.specs.Code.{coded_exp, coded_stmt};

    ghost Value = { Rooted };

    ghost coded = { Prim.hlevel (codes, coded_exp, coded_stmt) };

    ghost view = { λ f. record { nodes = f.nodes; trees = forest_of f.nodes f.exps f.stmts } };

    ghost invariant = { λ f. StandIn f.nodes f.exps f.stmts };
}

impl Forest {
    /// No trees. It takes no memory until the first node.
    pub fn new(alloc: Global) -> Self
        ensures { result.trees ≡ record { exps = []; stmts = [] } }
    {
        Forest {
            nodes: Nodes::new(alloc),
            exps: ValueStack::new(alloc),
            stmts: ValueStack::new(alloc),
        }
    }

    /// Takes the place of the newest expression; where there is none, that of one more.
    fn take_exp(&mut self) -> Result<usize, OutOfMemory>
        ensures { IfOk result (TakesExp self.old self.new) }
    {
        match self.exps.pop() {
            Some(place) => Ok(place),
            None => self.nodes.expression(ExpNode::NoArguments),
        }
    }

    /// Takes the place of the newest statement; where there is none, that of one more.
    fn take_stmt(&mut self) -> Result<usize, OutOfMemory>
        ensures { IfOk result (TakesStmt self.old self.new) }
    {
        match self.stmts.pop() {
            Some(place) => Ok(place),
            None => self.nodes.statement(StmtNode::NoStatements),
        }
    }

    /// One more expression, over earlier ones.
    fn push_exp(&mut self, node: ExpNode) -> Result<(), OutOfMemory>
        requires { ExpInOrder (length self.old.nodes.exps) node }
        ensures { OnOk result (self.new.trees ≡ record self.old.trees { exps = exp_of self.old.nodes.exps node ∷ self.old.trees.exps }) }
    {
        let place = self.nodes.expression(node)?;
        self.exps.push(place)
    }

    /// One more statement, over earlier ones.
    fn push_stmt(&mut self, node: StmtNode) -> Result<(), OutOfMemory>
        requires { StmtInOrder (length self.old.nodes.exps) (length self.old.nodes.stmts) node }
        ensures { OnOk result (self.new.trees ≡ record self.old.trees { stmts = stmt_of self.old.nodes.exps self.old.nodes.stmts node ∷ self.old.trees.stmts }) }
    {
        let place = self.nodes.statement(node)?;
        self.stmts.push(place)
    }

    /// One more expression, which has no parts.
    pub fn expression(&mut self, node: ExpNode) -> Result<(), OutOfMemory>
        requires { ExpInOrder 0 node }
        ensures { OnOk result (self.new.trees ≡ record self.old.trees { exps = exp_of [] node ∷ self.old.trees.exps }) }
    {
        self.push_exp(node)
    }

    /// One more statement, which has no parts.
    pub fn statement(&mut self, node: StmtNode) -> Result<(), OutOfMemory>
        requires { StmtInOrder 0 0 node }
        ensures { OnOk result (self.new.trees ≡ record self.old.trees { stmts = stmt_of [] [] node ∷ self.old.trees.stmts }) }
    {
        self.push_stmt(node)
    }

    /// A member of the newest expression.
    pub fn member(&mut self, word: Text) -> Result<(), OutOfMemory>
        ensures { OnOk result (self.new.trees ≡ record self.old.trees { exps = on_exp (λ e. tree.member e word) self.old.trees.exps }) }
    {
        let of = self.take_exp()?;
        self.push_exp(ExpNode::Member(of, word))
    }

    /// An element of the newest expression.
    pub fn index(&mut self, at: Literal16) -> Result<(), OutOfMemory>
        ensures { OnOk result (self.new.trees ≡ record self.old.trees { exps = on_exp (λ e. tree.index e at) self.old.trees.exps }) }
    {
        let of = self.take_exp()?;
        self.push_exp(ExpNode::Index(of, at))
    }

    /// A slice of the newest expression.
    pub fn slice(&mut self, high: Literal16, low: Literal16) -> Result<(), OutOfMemory>
        ensures { OnOk result (self.new.trees ≡ record self.old.trees { exps = on_exp (λ e. tree.slice e high low) self.old.trees.exps }) }
    {
        let of = self.take_exp()?;
        self.push_exp(ExpNode::Slice(of, high, low))
    }

    /// A cast of the newest expression.
    pub fn cast(&mut self, to: CastType) -> Result<(), OutOfMemory>
        ensures { OnOk result (self.new.trees ≡ record self.old.trees { exps = on_exp (tree.cast to) self.old.trees.exps }) }
    {
        let of = self.take_exp()?;
        self.push_exp(ExpNode::Cast(to, of))
    }

    /// An operator before the newest expression.
    pub fn unary(&mut self, operator: UnaryOperator) -> Result<(), OutOfMemory>
        ensures { OnOk result (self.new.trees ≡ record self.old.trees { exps = on_exp (tree.unary operator) self.old.trees.exps }) }
    {
        let of = self.take_exp()?;
        self.push_exp(ExpNode::Unary(operator, of))
    }

    /// A list of the newest items.
    pub fn listed(&mut self) -> Result<(), OutOfMemory>
        ensures { OnOk result (self.new.trees ≡ record self.old.trees { exps = on_exp (tree.listed) self.old.trees.exps }) }
    {
        let of = self.take_exp()?;
        self.push_exp(ExpNode::Listed(of))
    }

    /// An operator between the two newest expressions.
    pub fn binary(&mut self, operator: BinaryOperator) -> Result<(), OutOfMemory>
        ensures { OnOk result (self.new.trees ≡ record self.old.trees { exps = on_exps (tree.binary operator) self.old.trees.exps }) }
    {
        let right = self.take_exp()?;
        let left = self.take_exp()?;
        self.push_exp(ExpNode::Binary(operator, left, right))
    }

    /// A call with the newest arguments.
    pub fn call(&mut self) -> Result<(), OutOfMemory>
        ensures { OnOk result (self.new.trees ≡ record self.old.trees { exps = on_exps (tree.call) self.old.trees.exps }) }
    {
        let right = self.take_exp()?;
        let left = self.take_exp()?;
        self.push_exp(ExpNode::Call(left, right))
    }

    /// A `lookahead` with the newest arguments.
    pub fn lookahead(&mut self, of: Type16) -> Result<(), OutOfMemory>
        ensures { OnOk result (self.new.trees ≡ record self.old.trees { exps = on_exps (λ e arguments. tree.lookahead e of arguments) self.old.trees.exps }) }
    {
        let right = self.take_exp()?;
        let left = self.take_exp()?;
        self.push_exp(ExpNode::Lookahead(left, of, right))
    }

    /// Puts the newest expression behind the arguments before it.
    pub fn argument(&mut self) -> Result<(), OutOfMemory>
        ensures { OnOk result (self.new.trees ≡ record self.old.trees { exps = on_exps (tree.argument) self.old.trees.exps }) }
    {
        let right = self.take_exp()?;
        let left = self.take_exp()?;
        self.push_exp(ExpNode::Argument(left, right))
    }

    /// `c ? a : b` of the three newest expressions.
    pub fn choice(&mut self) -> Result<(), OutOfMemory>
        ensures { OnOk result (self.new.trees ≡ record self.old.trees { exps = tree.choice (first_exp (older (older self.old.trees.exps))) (first_exp (older self.old.trees.exps)) (first_exp self.old.trees.exps) ∷ older (older (older self.old.trees.exps)) }) }
    {
        let no = self.take_exp()?;
        let yes = self.take_exp()?;
        let condition = self.take_exp()?;
        self.push_exp(ExpNode::Choice(condition, yes, no))
    }

    /// A block of the newest list of statements.
    pub fn block(&mut self) -> Result<(), OutOfMemory>
        ensures { OnOk result (self.new.trees ≡ record self.old.trees { stmts = on_stmt (tree.block) self.old.trees.stmts }) }
    {
        let inner = self.take_stmt()?;
        self.push_stmt(StmtNode::Block(inner))
    }

    /// `switch` with the newest cases.
    pub fn switch(&mut self, table: Text) -> Result<(), OutOfMemory>
        ensures { OnOk result (self.new.trees ≡ record self.old.trees { stmts = on_stmt (tree.switch table) self.old.trees.stmts }) }
    {
        let inner = self.take_stmt()?;
        self.push_stmt(StmtNode::Switch(table, inner))
    }

    /// Puts the newest statement into the list of statements before it.
    pub fn then(&mut self) -> Result<(), OutOfMemory>
        ensures { OnOk result (self.new.trees ≡ record self.old.trees { stmts = on_stmts (tree.then) self.old.trees.stmts }) }
    {
        let last = self.take_stmt()?;
        let before = self.take_stmt()?;
        self.push_stmt(StmtNode::Then(before, last))
    }

    /// Puts a case of the newest list of statements behind the cases before it.
    pub fn case(&mut self, label: CaseLabel) -> Result<(), OutOfMemory>
        ensures { OnOk result (self.new.trees ≡ record self.old.trees { stmts = on_stmts (λ before inside. tree.case_of before label inside) self.old.trees.stmts }) }
    {
        let last = self.take_stmt()?;
        let before = self.take_stmt()?;
        self.push_stmt(StmtNode::Case(before, label, last))
    }

    /// A call as a statement.
    pub fn expression_stmt(&mut self) -> Result<(), OutOfMemory>
        ensures { OnOk result (self.new.trees ≡ record { exps = older self.old.trees.exps; stmts = tree.expression (first_exp self.old.trees.exps) ∷ self.old.trees.stmts }) }
    {
        let value = self.take_exp()?;
        self.push_stmt(StmtNode::Expression(value))
    }

    /// A variable with the newest expression as its initial value.
    pub fn var_is(&mut self, of: Type16, name: Text) -> Result<(), OutOfMemory>
        ensures { OnOk result (self.new.trees ≡ record { exps = older self.old.trees.exps; stmts = tree.var_is of name (first_exp self.old.trees.exps) ∷ self.old.trees.stmts }) }
    {
        let value = self.take_exp()?;
        self.push_stmt(StmtNode::VarIs(of, name, value))
    }

    /// An assignment of the newest expression to the one before it.
    pub fn assign(&mut self) -> Result<(), OutOfMemory>
        ensures { OnOk result (self.new.trees ≡ record { exps = older (older self.old.trees.exps); stmts = tree.assign (first_exp (older self.old.trees.exps)) (first_exp self.old.trees.exps) ∷ self.old.trees.stmts }) }
    {
        let value = self.take_exp()?;
        let target = self.take_exp()?;
        self.push_stmt(StmtNode::Assign(target, value))
    }

    /// `if` without `else` of the newest condition and statement.
    pub fn if_then(&mut self) -> Result<(), OutOfMemory>
        ensures { OnOk result (self.new.trees ≡ record { exps = older self.old.trees.exps; stmts = on_stmt (tree.if_then (first_exp self.old.trees.exps)) self.old.trees.stmts }) }
    {
        let condition = self.take_exp()?;
        let yes = self.take_stmt()?;
        self.push_stmt(StmtNode::If(condition, yes))
    }

    /// `if` with `else` of the newest condition and the two newest statements.
    pub fn if_else(&mut self) -> Result<(), OutOfMemory>
        ensures { OnOk result (self.new.trees ≡ record { exps = older self.old.trees.exps; stmts = on_stmts (tree.if_else (first_exp self.old.trees.exps)) self.old.trees.stmts }) }
    {
        let condition = self.take_exp()?;
        let no = self.take_stmt()?;
        let yes = self.take_stmt()?;
        self.push_stmt(StmtNode::IfElse(condition, yes, no))
    }

    /// Whether the newest expression is a call.
    pub fn is_call(&self) -> bool
        ensures { result ≡ is_call (first_exp self.now.trees.exps) }
    {
        match self.exps.newest() {
            Some(place) => is_call_at(&self.nodes, *place),
            None => false,
        }
    }

    /// Whether the newest expression could be a type.
    pub fn is_type_like(&self) -> bool
        ensures { result ≡ is_type_like (first_exp self.now.trees.exps) }
    {
        match self.exps.newest() {
            Some(place) => is_type_like_at(&self.nodes, *place),
            None => false,
        }
    }

    /// Takes the newest expression off, as the type that it could be.
    pub fn take_type(&mut self, alloc: Global) -> Result<Type16, OutOfMemory>
        ensures kind { IfOk result (λ kind. kind ≡ type_of (first_exp self.old.trees.exps)) }
        ensures rest { OnOk result (self.new.trees ≡ record self.old.trees { exps = older self.old.trees.exps }) }
    {
        let place = self.take_exp()?;
        type_at(alloc, &self.nodes, place)
    }

    /// Takes all nodes out, and lets the stacks of places go empty.
    fn take_nodes(&mut self, alloc: Global) -> Nodes
        ensures nodes { result ≡ self.old.nodes }
        ensures rest { self.new.trees ≡ record { exps = []; stmts = [] } }
    {
        self.exps.clear();
        self.stmts.clear();
        mem::replace(&mut self.nodes, Nodes::new(alloc))
    }

    /// Lets all trees go. It takes no memory, and what the stacks of places have stays theirs.
    pub fn clear(&mut self, alloc: Global)
        ensures { self.new.trees ≡ record { exps = []; stmts = [] } }
    {
        drop(self.take_nodes(alloc));
    }

    /// Takes out the newest expression. All nodes go into it.
    pub fn take_out_exp(&mut self, alloc: Global) -> Result<Exp, OutOfMemory>
        ensures exp { IfOk result (λ exp. exp ≡ first_exp self.old.trees.exps) }
        ensures rest { OnOk result (self.new.trees ≡ record { exps = []; stmts = [] }) }
    {
        let place = self.take_exp()?;
        let nodes = self.take_nodes(alloc);
        Ok(Exp::new(nodes, place))
    }

    /// Takes out the newest list of statements. All nodes go into it.
    pub fn take_out_block(&mut self, alloc: Global) -> Result<Block16, OutOfMemory>
        ensures block { IfOk result (λ block. block ≡ first_stmt self.old.trees.stmts) }
        ensures rest { OnOk result (self.new.trees ≡ record { exps = []; stmts = [] }) }
    {
        let place = self.take_stmt()?;
        let nodes = self.take_nodes(alloc);
        Ok(Block16::new(nodes, place))
    }
}

/// Whether the expression at this place is a call.
fn is_call_at(nodes: &Nodes, place: usize) -> bool
    requires { place < length nodes.now.exps }
    ensures { result ≡ is_call (exp_at nodes.now.exps place) }
{
    matches!(
        nodes.exp_node(place),
        ExpNode::Call(_, _) | ExpNode::Lookahead(_, _, _)
    )
}

/// Whether the expression at this place is a name.
fn is_name_at(nodes: &Nodes, place: usize) -> bool
    requires { place < length nodes.now.exps }
    ensures { result ≡ is_plain_name (exp_at nodes.now.exps place) }
{
    matches!(nodes.exp_node(place), ExpNode::Name(_))
}

/// Whether the expression at this place could be a type.
fn is_type_like_at(nodes: &Nodes, place: usize) -> bool
    requires { place < length nodes.now.exps }
    ensures { result ≡ is_type_like (exp_at nodes.now.exps place) }
{
    match nodes.exp_node(place) {
        ExpNode::Name(_) => true,
        ExpNode::Index(of, _) => is_name_at(nodes, *of),
        _ => false,
    }
}

/// A copy of the name at this place, and nothing where another expression stands.
fn name_at(alloc: Global, nodes: &Nodes, place: usize) -> Result<Text, OutOfMemory>
    requires { place < length nodes.now.exps }
    ensures { IfOk result (λ text. text ≡ name_of (exp_at nodes.now.exps place)) }
{
    match nodes.exp_node(place) {
        ExpNode::Name(text) => Text::from_slice(alloc, text.as_slice()),
        _ => Ok(Text::new(alloc)),
    }
}

/// The type that the expression at this place could be.
fn type_at(alloc: Global, nodes: &Nodes, place: usize) -> Result<Type16, OutOfMemory>
    requires { place < length nodes.now.exps }
    ensures { IfOk result (λ kind. kind ≡ type_of (exp_at nodes.now.exps place)) }
{
    match nodes.exp_node(place) {
        ExpNode::Name(text) => Ok(Type16::Named(Text::from_slice(alloc, text.as_slice())?, None)),
        ExpNode::Index(of, at) => Ok(Type16::Named(name_at(alloc, nodes, *of)?, Some(*at))),
        _ => Ok(Type16::Bool),
    }
}
