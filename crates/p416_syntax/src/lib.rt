//! The syntax of P4_16, as this profile has it, and the rules that a program has to keep beyond its grammar. First the
//! reserved words, marks, annotations, include lines, numbers and tokens; then each part of the grammar as a struct or
//! an enum, expressions and statements as nodes in lists, of which contracts see the trees; then, as definitions, the
//! rules: `Breaks16` says of a syntax that it breaks a rule and no lower one.
#![tactic(auto)]

mod blocks;
mod controls;
mod keyword;
mod lexeme;
mod mark;
mod node;
mod nodes;
mod parsers;
mod parts;
mod program;
mod rule;
mod stack;
mod views;
mod walk;

pub use blocks::{Block16, BlockParts, Exp, ExpParts};
pub use controls::{Action16, ActionName, Control16, Instance, Local, Property, Table16, TableKey};
pub use keyword::{Keyword16, is_reserved};
pub use lexeme::{Annotation16, Include16, Lexeme16, Literal16};
pub use mark::Mark16;
pub use node::{BinaryOperator, CaseLabel, CastType, ExpNode, StmtNode, UnaryOperator};
pub use nodes::Nodes;
pub use parsers::{Keyset, Parser16, SelectCase, Simple, State, Target, Transition, Var};
pub use parts::{
    BitField, CloneType, CounterType, Direction, HashAlgorithm, Header16, Member, MeterType, Note,
    Param, Struct16, StructField, Type16, name_note,
};
pub use program::{Decl16, Syntax16};
pub use rule::ProgramRule;
pub use views::{ExpHead, ExpView, StmtHead, StmtView};
pub use walk::{all_expressions, own_expressions, statements_within};
