// The rows of the grammar: for each word the classes that it may begin with, and the symbols that follow. The macros
// stand above the modules that use them.
ghost use Rattle.std.specs.Prelude.{◌≡◌};
ghost use Rattle.predictive_parser.specs.Told.{told};
ghost use Rattle.p414_reader.specs.internal.Rows as specs;
ghost use Rattle.p414_reader.specs.internal.Coded.{coded};

use crate::symbols::{Action, Class, Word};
use p414_syntax::Mark;
use predictive_parser::{Otherwise, Row, Symbol, WordRows};

/// A class, and the symbols that follow its token.
macro_rules! row {
    ($first:expr => $($rest:expr),+) => { Row::Plain($first, &[$($rest),+]) };
}

/// The rows of this word, with these symbols behind each.
macro_rules! like {
    ($word:expr => $($more:expr),*) => { Row::Like($word, &[$($more),*]) };
}

/// These rows; where none fits, the token is refused.
macro_rules! refuse {
    ($rows:expr) => { WordRows { rows: $rows, otherwise: Otherwise::Refuse } };
}

/// These rows; where none fits, the word stands for no token.
macro_rules! pass {
    ($rows:expr) => { WordRows { rows: $rows, otherwise: Otherwise::Pass } };
}

/// These rows; where none fits, the word stands for no token, and the action is done.
macro_rules! build {
    ($rows:expr => $action:expr) => { WordRows { rows: $rows, otherwise: Otherwise::Build($action) } };
}

/// The class of this word of the language.
macro_rules! key {
    ($word:ident) => { Class::Word(Keyword::$word) };
}

/// The class of this mark.
macro_rules! mark {
    ($mark:ident) => { Class::Mark(Mark::$mark) };
}

/// This word of the language.
macro_rules! quoted {
    ($word:ident) => { Symbol::Token(Class::Word(Keyword::$word)) };
}

/// A declaration ends.
macro_rules! decl {
    ($($kind:tt)*) => { Symbol::Put(Action::AddDecl(DeclKind::$($kind)*)) };
}

/// A word for names, numbers, instances and fields.
macro_rules! part {
    ($($word:tt)*) => { Symbol::Word(Word::Part(PartWord::$($word)*)) };
}

/// Does an action on names, numbers, instances and fields.
macro_rules! put_part {
    ($($action:tt)*) => { Symbol::Put(Action::Part(PartAction::$($action)*)) };
}

/// A word for header types, header instances and metadata.
macro_rules! header {
    ($($word:tt)*) => { Symbol::Word(Word::Header(HeaderWord::$($word)*)) };
}

/// Does an action on header types, header instances and metadata.
macro_rules! put_header {
    ($($action:tt)*) => { Symbol::Put(Action::Header(HeaderAction::$($action)*)) };
}

/// A word for field lists, calculations and calculated fields.
macro_rules! calculation {
    ($($word:tt)*) => { Symbol::Word(Word::Calculation(CalculationWord::$($word)*)) };
}

/// Does an action on field lists, calculations and calculated fields.
macro_rules! put_calculation {
    ($($action:tt)*) => { Symbol::Put(Action::Calculation(CalculationAction::$($action)*)) };
}

/// A word for parser states.
macro_rules! state {
    ($($word:tt)*) => { Symbol::Word(Word::State(StateWord::$($word)*)) };
}

/// Does an action on parser states.
macro_rules! put_state {
    ($($action:tt)*) => { Symbol::Put(Action::State(StateAction::$($action)*)) };
}

/// A word for actions.
macro_rules! call {
    ($($word:tt)*) => { Symbol::Word(Word::Call(CallWord::$($word)*)) };
}

/// Does an action on actions.
macro_rules! put_call {
    ($($action:tt)*) => { Symbol::Put(Action::Call(CallAction::$($action)*)) };
}

/// A word for tables.
macro_rules! table {
    ($($word:tt)*) => { Symbol::Word(Word::Table(TableWord::$($word)*)) };
}

/// Does an action on tables.
macro_rules! put_table {
    ($($action:tt)*) => { Symbol::Put(Action::Table(TableAction::$($action)*)) };
}

/// A word for counters, meters and registers.
macro_rules! object {
    ($($word:tt)*) => { Symbol::Word(Word::Object(ObjectWord::$($word)*)) };
}

/// Does an action on counters, meters and registers.
macro_rules! put_object {
    ($($action:tt)*) => { Symbol::Put(Action::Object(ObjectAction::$($action)*)) };
}

/// A word for expressions and controls.
macro_rules! body {
    ($($word:tt)*) => { Symbol::Word(Word::Body(BodyWord::$($word)*)) };
}

/// Does an action on expressions and controls.
macro_rules! put_body {
    ($($action:tt)*) => { Symbol::Put(Action::Body(BodyAction::$($action)*)) };
}

mod bodies;
mod calculations;
mod calls;
mod decls;
mod headers;
mod objects;
mod parts;
mod states;
mod tables;

/// A symbol of the grammar.
pub type Sym = Symbol<Class, Action, Word>;

/// The rows of a word.
type Rows = &'static [Row<'static, Class, Action, Word>];

/// The rows of a word, and what it does where none of them fits.
pub type Told = WordRows<'static, Class, Action, Word>;

pub const BRACE_OPEN: Sym = Symbol::Token(Class::Mark(Mark::BraceOpen));

pub const BRACE_CLOSE: Sym = Symbol::Token(Class::Mark(Mark::BraceClose));

pub const PAREN_OPEN: Sym = Symbol::Token(Class::Mark(Mark::ParenOpen));

pub const PAREN_CLOSE: Sym = Symbol::Token(Class::Mark(Mark::ParenClose));

pub const BRACKET_CLOSE: Sym = Symbol::Token(Class::Mark(Mark::BracketClose));

pub const SEMICOLON: Sym = Symbol::Token(Class::Mark(Mark::Semicolon));

pub const COLON: Sym = Symbol::Token(Class::Mark(Mark::Colon));

pub const COMMA: Sym = Symbol::Token(Class::Mark(Mark::Comma));

pub const DOT: Sym = Symbol::Token(Class::Mark(Mark::Dot));

pub const EQUAL: Sym = Symbol::Token(Class::Mark(Mark::Equal));

pub const A_NAME: Sym = Symbol::Token(Class::Name);

pub const A_NUMBER: Sym = Symbol::Token(Class::Number);

/// The rows of the word, and what it does where none of them fits.
pub fn rows_of(word: Word) -> Told
    ensures rows { told (coded word) result.rows.now ≡ specs.rows word }
    ensures otherwise { result.otherwise ≡ specs.otherwise word }
{
    match word {
        Word::Part(word) => parts::rows_of(word),
        Word::Header(word) => headers::rows_of(word),
        Word::Calculation(word) => calculations::rows_of(word),
        Word::State(word) => states::rows_of(word),
        Word::Call(word) => calls::rows_of(word),
        Word::Table(word) => tables::rows_of(word),
        Word::Object(word) => objects::rows_of(word),
        Word::Body(word) => bodies::rows_of(word),
        Word::LeftOutEnd => refuse!(decls::LEFT_OUT_END),
        Word::Group => pass!(decls::GROUP),
        Word::Decls => build!(decls::DECLS => Action::EndDecls),
    }
}
