// The rows of the grammar: for each word the classes that it may begin with, and the symbols that follow. The macros
// stand above the modules that use them.
ghost use Rattle.std.specs.Prelude.{◌≡◌};
ghost use Rattle.predictive_parser.specs.Told.{told};
ghost use Rattle.p416_reader.specs.internal.Rows as specs;
ghost use Rattle.p416_reader.specs.internal.Coded.{coded};

use crate::symbols::{Action, Class, Word};
use p416_syntax::Mark16;
use predictive_parser::{Row, Symbol, WordRows};

/// A class, and the symbols that follow its token.
macro_rules! row {
    ($first:expr => $($rest:expr),+) => { Row::Plain($first, &[$($rest),+]) };
}

/// The rows of this word, with these symbols behind each.
macro_rules! like {
    ($word:expr => $($more:expr),*) => { Row::Like($word, &[$($more),*]) };
}

/// These rows; where none fits, the token is refused.
macro_rules! refuse {
    ($rows:expr) => { WordRows { rows: $rows, otherwise: Otherwise::Refuse } };
}

/// These rows; where none fits, the word stands for no token.
macro_rules! pass {
    ($rows:expr) => { WordRows { rows: $rows, otherwise: Otherwise::Pass } };
}

/// These rows; where none fits, the word stands for no token, and the action is done.
macro_rules! build {
    ($rows:expr => $action:expr) => { WordRows { rows: $rows, otherwise: Otherwise::Build($action) } };
}

/// The class of this reserved word.
macro_rules! key {
    ($word:ident) => { Class::Word(Keyword16::$word) };
}

/// The class of this name.
macro_rules! known {
    ($word:ident) => { Class::Known(Known::$word) };
}

/// The class of this mark.
macro_rules! mark {
    ($mark:ident) => { Class::Mark(Mark16::$mark) };
}

/// This reserved word.
macro_rules! quoted {
    ($word:ident) => { Symbol::Token(Class::Word(Keyword16::$word)) };
}

/// A word for annotations, types, parameters and members.
macro_rules! part {
    ($($word:tt)*) => { Symbol::Word(Word::Part(PartWord::$($word)*)) };
}

/// Does an action on annotations, types, parameters and members.
macro_rules! put_part {
    ($($action:tt)*) => { Symbol::Put(Action::Part(PartAction::$($action)*)) };
}

/// A word for expressions and statements.
macro_rules! body {
    ($($word:tt)*) => { Symbol::Word(Word::Body(BodyWord::$($word)*)) };
}

/// Does an action on expressions and statements.
macro_rules! put_body {
    ($($action:tt)*) => { Symbol::Put(Action::Body(BodyAction::$($action)*)) };
}

/// A word for parsers and their states.
macro_rules! state {
    ($($word:tt)*) => { Symbol::Word(Word::State(StateWord::$($word)*)) };
}

/// Does an action on parsers and their states.
macro_rules! put_state {
    ($($action:tt)*) => { Symbol::Put(Action::State(StateAction::$($action)*)) };
}

/// A word for controls.
macro_rules! control {
    ($($word:tt)*) => { Symbol::Word(Word::Control(ControlWord::$($word)*)) };
}

/// Does an action on controls.
macro_rules! put_control {
    ($($action:tt)*) => { Symbol::Put(Action::Control(ControlAction::$($action)*)) };
}

/// A word for declarations.
macro_rules! decl {
    ($($word:tt)*) => { Symbol::Word(Word::Decl(DeclWord::$($word)*)) };
}

/// Does an action on declarations.
macro_rules! put_decl {
    ($($action:tt)*) => { Symbol::Put(Action::Decl(DeclAction::$($action)*)) };
}

mod bodies;
mod controls;
mod decls;
mod parts;
mod states;

/// A symbol of the grammar.
pub type Sym = Symbol<Class, Action, Word>;

/// The rows of a word.
type Rows = &'static [Row<'static, Class, Action, Word>];

/// The rows of a word, and what it does where none of them fits.
pub type Told = WordRows<'static, Class, Action, Word>;

pub const BRACE_OPEN: Sym = Symbol::Token(Class::Mark(Mark16::BraceOpen));

pub const BRACE_CLOSE: Sym = Symbol::Token(Class::Mark(Mark16::BraceClose));

pub const PAREN_OPEN: Sym = Symbol::Token(Class::Mark(Mark16::ParenOpen));

pub const PAREN_CLOSE: Sym = Symbol::Token(Class::Mark(Mark16::ParenClose));

pub const BRACKET_CLOSE: Sym = Symbol::Token(Class::Mark(Mark16::BracketClose));

pub const SEMICOLON: Sym = Symbol::Token(Class::Mark(Mark16::Semicolon));

pub const COLON: Sym = Symbol::Token(Class::Mark(Mark16::Colon));

pub const COMMA: Sym = Symbol::Token(Class::Mark(Mark16::Comma));

pub const DOT: Sym = Symbol::Token(Class::Mark(Mark16::Dot));

pub const LESS: Sym = Symbol::Token(Class::Mark(Mark16::Less));

pub const GREATER: Sym = Symbol::Token(Class::Mark(Mark16::Greater));

pub const ASSIGN: Sym = Symbol::Token(Class::Mark(Mark16::Assign));

pub const A_NAME: Sym = Symbol::Token(Class::Name);

pub const A_NUMBER: Sym = Symbol::Token(Class::Number);

pub const A_STRING: Sym = Symbol::Token(Class::String);

/// The rows of the word, and what it does where none of them fits.
pub fn rows_of(word: Word) -> Told
    ensures rows { told (coded word) result.rows.now ≡ specs.rows word }
    ensures otherwise { result.otherwise ≡ specs.otherwise word }
{
    match word {
        Word::Part(word) => parts::rows_of(word),
        Word::Body(word) => bodies::rows_of(word),
        Word::State(word) => states::rows_of(word),
        Word::Control(word) => controls::rows_of(word),
        Word::Decl(word) => decls::rows_of(word),
    }
}
