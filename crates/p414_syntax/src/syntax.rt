// The syntax of a whole program.
use crate::actions::Action;
use crate::calculations::{CalculatedField, FieldList, FieldListCalculation};
use crate::control::Control;
use crate::headers::{Header, HeaderType, Metadata};
use crate::lexeme::Lexeme;
use crate::objects::Stateful;
use crate::parsers::Parser;
use crate::tables::Table;
use p4x_bits::{Rows, Text};

/// A declaration that is read and has no meaning here.
#[derive(Clone, Copy, PartialEq, Eq, Drop)]
pub enum LeftOutKind {
    /// `parser_value_set`.
    ParserValueSet,
    /// `parser_exception`.
    ParserException,
    /// `action_profile`.
    ActionProfile,
    /// `action_selector`.
    ActionSelector,
}

/// `KIND NAME;`, or `KIND NAME` with a group of tokens in braces behind it.
pub struct LeftOut {
    /// The kind.
    pub kind: LeftOutKind,
    /// The name.
    pub name: Text,
    /// The tokens between the outer braces, where braces stand. Among them braces are balanced.
    pub group: Option<Rows<Lexeme>>,
}

impl Drop for LeftOut {
    fn drop(self) {
        let LeftOut {
            kind: _kind,
            name: _name,
            group: _group,
        } = self;
    }
}

/// A declaration (P4_14 1.0.5, "Summary of P4 BNF").
pub enum Decl {
    /// A header type.
    HeaderType(HeaderType),
    /// A header instance or a header stack.
    Header(Header),
    /// A metadata instance.
    Metadata(Metadata),
    /// A field list.
    FieldList(FieldList),
    /// A calculation over field lists.
    FieldListCalculation(FieldListCalculation),
    /// A calculated field.
    CalculatedField(CalculatedField),
    /// A parser state.
    Parser(Parser),
    /// An action.
    Action(Action),
    /// A table.
    Table(Table),
    /// A counter.
    Counter(Stateful),
    /// A meter.
    Meter(Stateful),
    /// A register.
    Register(Stateful),
    /// A control.
    Control(Control),
    /// A declaration that is left out.
    LeftOut(LeftOut),
}

impl Drop for Decl {
    fn drop(self) {
        match self {
            Decl::HeaderType(_a) => {}
            Decl::Header(_a) => {}
            Decl::Metadata(_a) => {}
            Decl::FieldList(_a) => {}
            Decl::FieldListCalculation(_a) => {}
            Decl::CalculatedField(_a) => {}
            Decl::Parser(_a) => {}
            Decl::Action(_a) => {}
            Decl::Table(_a) => {}
            Decl::Counter(_a) => {}
            Decl::Meter(_a) => {}
            Decl::Register(_a) => {}
            Decl::Control(_a) => {}
            Decl::LeftOut(_a) => {}
        }
    }
}

/// The syntax of a P4_14 program: its declarations in order.
#[derive(Drop)]
pub struct Syntax14 {
    /// The declarations in order.
    pub decls: Rows<Decl>,
}

/// How the primitives of an action act on each other (P4_14 1.0.5, "Actions", says parallel; programs were written
/// for both).
#[derive(Clone, Copy, PartialEq, Eq, Drop)]
pub enum Rule14 {
    /// Each primitive acts on what the one before it left.
    Sequential,
    /// Each primitive reads what stood at the action's entry.
    Parallel,
}

/// A sort of declared names. A name is declared once in its sort.
#[derive(Clone, Copy, PartialEq, Eq, Drop)]
pub enum Sort {
    /// Header types.
    HeaderType,
    /// Header and metadata instances.
    Instance,
    /// Parser states and controls.
    Parse,
    /// Actions.
    Action,
    /// Tables.
    Table,
    /// Field lists.
    List,
    /// Calculations.
    Calculation,
    /// Counters, meters and registers.
    Object,
}

// A program's syntax may be moved to another thread, and shared between threads.
fn is_shared<T: Send + Sync>(_shared: &T) {}

fn is_syntax_shared(syntax: &Syntax14) {
    is_shared(syntax);
}
