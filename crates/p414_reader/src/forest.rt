// Expressions and statements over earlier ones, as they are put together.
ghost use Rattle.std.specs.Prelude.{◌≡◌, [], ◌∷◌, length, map, IfOk, OnOk};
ghost use Rattle.p414_syntax.specs.Tree as tree;
ghost use Rattle.p414_syntax.specs.Tree.{parenthesized, unary, binary, no_statements, apply_branches, branch, else_block, else_if, expr_of, stmt_of, ExprInOrder, StmtInOrder};
ghost use Rattle.p414_syntax.specs.Views.{length_is, max_length_is, tail_tree, TailWithin};
ghost use Rattle.p414_syntax.specs.Written.{tail_word};
ghost use Rattle.p414_syntax.specs.Conditions.{is_among};
ghost use Rattle.p414_syntax.specs.Keywords.{keyword_text};
ghost use Rattle.predictive_parser.specs.Values.{newest, extended};
ghost use Rattle.p414_reader.specs.internal.Actions.{on_expr, on_exprs, with_stmt, with_else_call};
ghost use Rattle.p414_reader.specs.internal.Forest.{TakesExpr, TakesStmt, over_stmt, over_stmts, over_if, add_tail};

use crate::attributes::has_word;
use p4x_bits::{OutOfMemory, Rows, Text};
use p414_syntax::{
    BinaryOperator, Control, ExprNode, Field, HeaderType, Keyword, Label, Nodes, StmtNode,
    TypeTail, UnaryOperator,
};
use predictive_parser::ValueStack;
use std::alloc::Global;
use std::marker::Model;
use std::mem;

/// Stacks of expressions, attributes of header types and statements, by the places of their nodes. Contracts see the
/// trees, and the nodes that they are made of.
#[derive(Drop)]
pub struct Forest {
    nodes: Nodes,
    exprs: ValueStack<usize>,
    tails: ValueStack<Rows<TypeTail>>,
    stmts: ValueStack<usize>,
}

impl Model for Forest {
    ghost use Rattle.p414_reader.specs.internal.Forest.{Rooted, forest_of, StandIn};
    ghost use Rattle.std.specs.Coded.{codes};
    ghost use Rattle.p414_syntax.specs.Code.{coded_expr, coded_stmt, coded_tail};

    ghost Value = { Rooted };

    ghost coded = { Prim.hlevel (codes, coded_expr, coded_stmt, coded_tail) };

    ghost view = { λ f. record { nodes = f.nodes; trees = forest_of f.nodes f.exprs f.tails f.stmts } };

    ghost invariant = { λ f. StandIn f.nodes f.exprs f.tails f.stmts };
}

impl Forest {
    /// No trees. It takes no memory until the first node.
    pub fn new(alloc: Global) -> Self
        ensures { result.trees ≡ record { exprs = []; tails = []; stmts = [] } }
    {
        Forest {
            nodes: Nodes::new(alloc),
            exprs: ValueStack::new(alloc),
            tails: ValueStack::new(alloc),
            stmts: ValueStack::new(alloc),
        }
    }

    /// Takes the place of the newest expression; where there is none, that of one more.
    fn take_expr(&mut self) -> Result<usize, OutOfMemory>
        ensures { IfOk result (TakesExpr self.old self.new) }
    {
        match self.exprs.pop() {
            Some(place) => Ok(place),
            None => self.nodes.expression(ExprNode::Truth(false)),
        }
    }

    /// Takes the place of the newest statement; where there is none, that of one more.
    fn take_stmt(&mut self) -> Result<usize, OutOfMemory>
        ensures { IfOk result (TakesStmt self.old self.new) }
    {
        match self.stmts.pop() {
            Some(place) => Ok(place),
            None => self.nodes.statement(StmtNode::NoStatements),
        }
    }

    /// One more expression, over earlier ones.
    fn push_expr(&mut self, node: ExprNode) -> Result<(), OutOfMemory>
        requires { ExprInOrder (length self.old.nodes.exprs) node }
        ensures { OnOk result (self.new.trees ≡ record self.old.trees { exprs = expr_of self.old.nodes.exprs node ∷ self.old.trees.exprs }) }
    {
        let place = self.nodes.expression(node)?;
        self.exprs.push(place)
    }

    /// One more statement, over earlier ones.
    fn push_stmt(&mut self, node: StmtNode) -> Result<(), OutOfMemory>
        requires { StmtInOrder (length self.old.nodes.exprs) (length self.old.nodes.stmts) node }
        ensures { OnOk result (self.new.trees ≡ record self.old.trees { stmts = stmt_of self.old.nodes.exprs self.old.nodes.stmts node ∷ self.old.trees.stmts }) }
    {
        let place = self.nodes.statement(node)?;
        self.stmts.push(place)
    }

    /// Puts an attribute into the newest list of attributes.
    fn add_tail(&mut self, alloc: Global, tail: TypeTail) -> Result<(), OutOfMemory>
        requires { TailWithin (length self.old.nodes.exprs) tail }
        ensures { OnOk result (self.new.trees ≡ record self.old.trees { tails = extended (tail_tree self.old.nodes tail ∷ []) self.old.trees.tails }) }
    {
        self.tails.extend(alloc, tail)
    }

    /// Begins a list of attributes of a header type.
    pub fn open_tails(&mut self, alloc: Global) -> Result<(), OutOfMemory>
        ensures { OnOk result (self.new.trees ≡ record self.old.trees { tails = [] ∷ self.old.trees.tails }) }
    {
        self.tails.push(Rows::new(alloc))
    }

    /// One more expression, which has no parts.
    pub fn expression(&mut self, node: ExprNode) -> Result<(), OutOfMemory>
        requires { ExprInOrder 0 node }
        ensures { OnOk result (self.new.trees ≡ record self.old.trees { exprs = expr_of [] node ∷ self.old.trees.exprs }) }
    {
        self.push_expr(node)
    }

    /// Parentheses around the newest expression.
    pub fn parenthesized(&mut self) -> Result<(), OutOfMemory>
        ensures { OnOk result (self.new.trees ≡ record self.old.trees { exprs = on_expr parenthesized self.old.trees.exprs }) }
    {
        let inner = self.take_expr()?;
        self.push_expr(ExprNode::Parenthesized(inner))
    }

    /// An operator before the newest expression.
    pub fn unary(&mut self, operator: UnaryOperator) -> Result<(), OutOfMemory>
        ensures { OnOk result (self.new.trees ≡ record self.old.trees { exprs = on_expr (unary operator) self.old.trees.exprs }) }
    {
        let operand = self.take_expr()?;
        self.push_expr(ExprNode::Unary(operator, operand))
    }

    /// An operator between the two newest expressions.
    pub fn binary(&mut self, operator: BinaryOperator) -> Result<(), OutOfMemory>
        ensures { OnOk result (self.new.trees ≡ record self.old.trees { exprs = on_exprs (binary operator) self.old.trees.exprs }) }
    {
        let right = self.take_expr()?;
        let left = self.take_expr()?;
        self.push_expr(ExprNode::Binary(operator, left, right))
    }

    /// Puts `length` of the newest expression into the newest list of attributes.
    pub fn add_length(&mut self, alloc: Global) -> Result<(), OutOfMemory>
        ensures { OnOk result (self.new.trees ≡ add_tail length_is self.old.trees) }
    {
        let place = self.take_expr()?;
        self.add_tail(alloc, TypeTail::Length(place))
    }

    /// Puts `max_length` of the newest expression into the newest list of attributes.
    pub fn add_max_length(&mut self, alloc: Global) -> Result<(), OutOfMemory>
        ensures { OnOk result (self.new.trees ≡ add_tail max_length_is self.old.trees) }
    {
        let place = self.take_expr()?;
        self.add_tail(alloc, TypeTail::MaxLength(place))
    }

    /// One more statement, which has no parts.
    pub fn statement(&mut self, node: StmtNode) -> Result<(), OutOfMemory>
        requires { StmtInOrder 0 0 node }
        ensures { OnOk result (self.new.trees ≡ record self.old.trees { stmts = stmt_of [] [] node ∷ self.old.trees.stmts }) }
    {
        self.push_stmt(node)
    }

    /// Puts the newest statement into the list of statements before it.
    pub fn then(&mut self) -> Result<(), OutOfMemory>
        ensures { OnOk result (self.new.trees ≡ record self.old.trees { stmts = over_stmts tree.then self.old.trees.stmts }) }
    {
        let last = self.take_stmt()?;
        let before = self.take_stmt()?;
        self.push_stmt(StmtNode::Then(before, last))
    }

    /// Puts a statement, which has no parts, into the newest list of statements.
    pub fn add_statement(&mut self, node: StmtNode) -> Result<(), OutOfMemory>
        requires { StmtInOrder 0 0 node }
        ensures { OnOk result (self.new.trees ≡ record self.old.trees { stmts = with_stmt (stmt_of [] [] node) self.old.trees.stmts }) }
    {
        self.statement(node)?;
        self.then()
    }

    /// Puts a branch of the newest list of statements into the list of branches before it.
    pub fn branch(&mut self, label: Label) -> Result<(), OutOfMemory>
        ensures { OnOk result (self.new.trees ≡ record self.old.trees { stmts = over_stmts (λ before body. branch before label body) self.old.trees.stmts }) }
    {
        let body = self.take_stmt()?;
        let before = self.take_stmt()?;
        self.push_stmt(StmtNode::Branch(before, label, body))
    }

    /// `apply` of a table, with the newest list of branches.
    pub fn apply_branches(&mut self, table: Text) -> Result<(), OutOfMemory>
        ensures { OnOk result (self.new.trees ≡ record self.old.trees { stmts = over_stmt (apply_branches table) self.old.trees.stmts }) }
    {
        let branches = self.take_stmt()?;
        self.push_stmt(StmtNode::ApplyBranches(table, branches))
    }

    /// `else` before the newest list of statements.
    pub fn else_block(&mut self) -> Result<(), OutOfMemory>
        ensures { OnOk result (self.new.trees ≡ record self.old.trees { stmts = over_stmt else_block self.old.trees.stmts }) }
    {
        let body = self.take_stmt()?;
        self.push_stmt(StmtNode::ElseBlock(body))
    }

    /// `else` before the newest statement.
    pub fn else_if(&mut self) -> Result<(), OutOfMemory>
        ensures { OnOk result (self.new.trees ≡ record self.old.trees { stmts = over_stmt else_if self.old.trees.stmts }) }
    {
        let statement = self.take_stmt()?;
        self.push_stmt(StmtNode::ElseIf(statement))
    }

    /// An `if` statement of the newest condition, block and what stands behind the block.
    pub fn if_then(&mut self) -> Result<(), OutOfMemory>
        ensures { OnOk result (self.new.trees ≡ over_if self.old.trees) }
    {
        let condition = self.take_expr()?;
        let other = self.take_stmt()?;
        let body = self.take_stmt()?;
        self.push_stmt(StmtNode::If(condition, body, other))
    }

    /// Puts a call of the control `else` into the newest list of statements, where it is called.
    pub fn else_call(&mut self, alloc: Global, is_called: bool) -> Result<(), OutOfMemory>
        ensures { OnOk result (self.new.trees ≡ record self.old.trees { stmts = with_else_call is_called self.old.trees.stmts }) }
    {
        if is_called {
            let name = Keyword::Else.to_text(alloc)?;
            self.add_statement(StmtNode::Call(name))
        } else {
            Ok(())
        }
    }

    /// Whether the attribute of this word stands in the newest list.
    pub fn has_tail(&self, word: Keyword) -> bool
        ensures { result ≡ is_among (keyword_text word) (map tail_word (newest [] self.now.trees.tails)) }
    {
        has_word(self.tails.newest_list(), word.text())
    }

    /// Takes out a header type with the newest list of attributes. All nodes go into it.
    pub fn take_header_type(&mut self, alloc: Global, name: Text, fields: Rows<Field>) -> HeaderType
        ensures { result ≡ record { name = name; fields = fields; tails = newest [] self.old.trees.tails } }
    {
        let Forest {
            nodes,
            mut tails,
            ..
        } = mem::replace(self, Forest::new(alloc));
        HeaderType::new(name, fields, tails.pop_list(alloc), nodes)
    }

    /// Takes out a control with the newest list of statements. All nodes go into it.
    pub fn take_control(&mut self, alloc: Global, name: Text) -> Result<Control, OutOfMemory>
        ensures { IfOk result (λ control. control ≡ record { name = name; body = newest no_statements self.old.trees.stmts }) }
    {
        let body = self.take_stmt()?;
        let Forest { nodes, .. } = mem::replace(self, Forest::new(alloc));
        Ok(Control::new(name, nodes, body))
    }
}
