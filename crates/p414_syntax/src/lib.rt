//! The syntax of P4_14, and the rules that a program has to keep beyond its grammar. First the words, marks, numbers
//! and tokens; then each part of the grammar as a struct or an enum, statements and expressions as nodes in lists, of
//! which contracts see the trees; then, as definitions, the rules: `Breaks14` says of a syntax that it breaks a rule
//! and no lower one, and `Order` which order the headers leave in.
#![tactic(auto)]

mod actions;
mod calculations;
mod control;
mod headers;
mod heads;
mod keyword;
mod lexeme;
mod mark;
mod named;
mod node;
mod nodes;
mod objects;
mod parsers;
mod parts;
mod place;
mod references;
mod rule;
mod sorted;
mod stack;
mod syntax;
mod tables;
mod walk;

pub use actions::{Action, Arg, Call};
pub use calculations::{
    Calc, CalcCond, CalcUse, CalculatedField, FieldList, FieldListCalculation, Item,
};
pub use control::{Control, ControlParts};
pub use headers::{
    Field, FieldWidth, Header, HeaderType, HeaderTypeParts, Initial, Initials, Metadata, TypeTail,
};
pub use heads::{ExprHead, ExprView, StmtHead, StmtView};
pub use keyword::Keyword;
pub use lexeme::{Lexeme, Literal};
pub use mark::Mark;
pub use named::Named;
pub use node::{BinaryOperator, ExprNode, Label, StmtNode, UnaryOperator};
pub use nodes::Nodes;
pub use objects::{CounterType, StateAttr, Stateful};
pub use parsers::{Case, CaseTarget, CaseValues, Masked, PStmt, PValue, Parser, Return};
pub use parts::{Index, Inst, Number, Ref, Sign};
pub use place::ArgumentPlace;
pub use references::References;
pub use rule::ProgramRule;
pub use sorted::{Sorted, sort_declarations};
pub use syntax::{Decl, LeftOut, LeftOutKind, Rule14, Sort, Syntax14};
pub use tables::{Read, ReadKey, Table, TableAttr};
pub use walk::{all_conditions, all_expressions, all_statements, statements_within};
