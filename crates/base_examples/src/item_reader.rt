// A small grammar that the parser reads, with its proofs: items with operators between them, of which
// `*` binds tighter than `+`, and lists of items in parentheses. Whether a list has an item shows only at
// the second token.
ghost use Rattle.std.specs.Prelude.{◌≡◌, ◌<◌, ◌≤◌, ℕ, List, [], map, length, slice_get, IfOk, IsErrOf, Some, None};
ghost use Rattle.base_examples.specs.declared.item_reader.Lexeme.{Lexeme};
ghost use Rattle.base_examples.specs.declared.item_reader.Event.{Event};
ghost use Rattle.base_examples.specs.declared.item_reader.Phrase.TheVariants as phrase;
ghost use Rattle.predictive_parser.specs.Grammar.{parse, first_fit, with_more, plain_lines};
ghost use Rattle.predictive_parser.specs.Choices.{Chooses};
ghost use Rattle.predictive_parser.specs.Told.{told};
ghost use Rattle.predictive_parser.specs.Answers.{IsRefusedAt, Parses, Gives};
ghost use Rattle.base_examples.specs.Syntax as syntax;
ghost use Rattle.base_examples.specs.Syntax.{Item, Spells, postorder};
ghost use Rattle.base_examples.specs.Items.{items, accepts, rows, coded, otherwise};

use p4x_bits::{OutOfMemory, Rows};
use predictive_parser::{
    Alternative, Builder, Lookahead, Otherwise, ParseError, Row, Stack, Symbol, WordRows,
    choose_first, parse,
};
use std::alloc::Global;

/// A token.
#[derive(Clone, Copy, Debug, PartialEq, Eq)]
pub enum Lexeme {
    Name(u32),
    Plus,
    Times,
    Open,
    Close,
    Comma,
}

/// A class of tokens.
#[derive(Clone, Copy, Debug)]
pub enum Class {
    AnyName,
    /// An operator that binds at least as tight as the first number says, and at most as the second.
    Operator(u8, u8),
    Open,
    Close,
    Comma,
}

/// A word of the grammar.
#[derive(Clone, Copy, Debug)]
pub enum Phrase {
    /// An item whose operators outside parentheses bind at least so tight.
    Item(u8),
    /// What may stand behind an operand: operators that bind at least as tight as the first number says,
    /// the next of them at most as the second.
    Tail(u8, u8),
    /// What stands behind an open parenthesis.
    ListEnd,
    /// What may stand behind an item of a list.
    More,
}

/// What is built, the parts of an item before the item.
#[derive(Clone, Copy, Debug, PartialEq, Eq)]
pub enum Event {
    /// A name.
    Name(u32),
    /// The operator between the two items before.
    Both(Lexeme),
    /// A list of no items.
    Nil,
    /// The item before the list before stands in front of the list.
    Cons,
    /// The list before is an item.
    List,
}

/// Tokens, and what is built of them.
#[derive(Drop)]
struct Reading<'t> {
    tokens: &'t [Lexeme],
    events: Rows<Event>,
}

/// How tight an operator binds, and 0 for what is none.
fn power(token: Lexeme) -> u8
    ensures is { result ≡ syntax.power token }
    ensures small { result ≤ 2 }
{
    match token {
        Lexeme::Plus => 1,
        Lexeme::Times => 2,
        _ => 0,
    }
}

/// Whether the token is of the class.
fn is_of(class: Class, token: Lexeme) -> bool
    ensures { result ≡ accepts class token }
{
    match class {
        Class::AnyName => matches!(token, Lexeme::Name(_)),
        Class::Operator(least, most) => {
            let power = power(token);
            0 < power && least <= power && power <= most
        }
        Class::Open => matches!(token, Lexeme::Open),
        Class::Close => matches!(token, Lexeme::Close),
        Class::Comma => matches!(token, Lexeme::Comma),
    }
}

/// The rows of a phrase.
type PhraseRows = &'static [Row<'static, Class, Event, Phrase>];

const CODED: PhraseRows = &[Row::Coded];

const LIST_END: PhraseRows = &[
    Row::Plain(
        Class::Close,
        &[Symbol::Put(Event::Nil), Symbol::Put(Event::List)],
    ),
    Row::Like(
        Phrase::Item(0),
        &[
            Symbol::Word(Phrase::More),
            Symbol::Token(Class::Close),
            Symbol::Put(Event::Cons),
            Symbol::Put(Event::List),
        ],
    ),
];

const MORE: PhraseRows = &[Row::Plain(
    Class::Comma,
    &[
        Symbol::Word(Phrase::Item(0)),
        Symbol::Word(Phrase::More),
        Symbol::Put(Event::Cons),
    ],
)];

/// The rows of the phrase, and what it does where none of them fits.
fn rows_of(phrase: Phrase) -> WordRows<'static, Class, Event, Phrase>
    ensures rows { told (coded phrase) result.rows.now ≡ rows phrase }
    ensures otherwise { result.otherwise ≡ otherwise phrase }
{
    let (rows, otherwise) = match phrase {
        Phrase::Item(_) => (CODED, Otherwise::Refuse),
        Phrase::Tail(_, _) => (CODED, Otherwise::Pass),
        Phrase::ListEnd => (LIST_END, Otherwise::Refuse),
        Phrase::More => (MORE, Otherwise::Build(Event::Nil)),
    };
    WordRows { rows, otherwise }
}

impl Lookahead for Reading<'_> {
    type Class = Class;

    type Action = Event;

    type Word = Phrase;

    ghost Token = { Lexeme };

    ghost Built = { List Event };

    ghost grammar = { items };

    ghost coded = { coded };

    ghost tokens = { λ reading. reading.tokens.now };

    ghost held = { λ reading. reading.events };

    fn count(&self) -> usize {
        self.tokens.len()
    }

    fn accepts(&self, class: Class, place: usize) -> bool {
        is_of(class, self.tokens[place])
    }
}

impl Builder for Reading<'_> {
    fn shift(&mut self, _class: Class, place: usize) -> Result<(), OutOfMemory> {
        match self.tokens[place] {
            Lexeme::Name(name) => self.events.push(Event::Name(name)),
            _ => Ok(()),
        }
    }

    fn put(&mut self, action: Event) -> Result<(), OutOfMemory> {
        self.events.push(action)
    }

    fn rows(&self, word: Phrase) -> WordRows<'_, Class, Event, Phrase> {
        rows_of(word)
    }

    fn choose_coded(
        &self,
        word: Phrase,
        more: &[Symbol<Class, Event, Phrase>],
        place: usize,
        stack: &mut Stack<Class, Event, Phrase>,
    ) -> Result<Option<Class>, OutOfMemory> {
        match word {
            Phrase::Item(least) => self.choose_item(least, more, place, stack),
            Phrase::Tail(least, most) => self.choose_tail(least, most, more, place, stack),
            Phrase::ListEnd | Phrase::More => Ok(None),
        }
    }
}

impl Reading<'_> {
    /// Chooses a row of an item, with `more` behind it.
    fn choose_item(
        &self,
        least: u8,
        more: &[Symbol<Class, Event, Phrase>],
        place: usize,
        stack: &mut Stack<Class, Event, Phrase>,
    ) -> Result<Option<Class>, OutOfMemory>
        requires { place < length self.now.tokens.now }
        ensures chooses { IfOk result (λ class. (token : Lexeme) → slice_get self.now.tokens.now place ≡ Some token
            → Chooses class
            (first_fit items token self.now.events (map (with_more more.now) (plain_lines (rows (phrase.Item least)))))
            stack.old stack.new) }
        ensures none { IfOk result (λ class. class ≡ None → stack.new ≡ stack.old) }
    {
        let tail = Symbol::Word(Phrase::Tail(least, 9));
        let name = Alternative {
            first: Class::AnyName,
            rest: &[tail],
        };
        let list = Alternative {
            first: Class::Open,
            rest: &[Symbol::Word(Phrase::ListEnd), tail],
        };
        choose_first(self, &[name, list], more, place, stack)
    }
}

impl Reading<'_> {
    /// Chooses the row of a tail, with `more` behind it.
    fn choose_tail(
        &self,
        least: u8,
        most: u8,
        more: &[Symbol<Class, Event, Phrase>],
        place: usize,
        stack: &mut Stack<Class, Event, Phrase>,
    ) -> Result<Option<Class>, OutOfMemory>
        requires { place < length self.now.tokens.now }
        ensures chooses { IfOk result (λ class. (token : Lexeme) → slice_get self.now.tokens.now place ≡ Some token
            → Chooses class
            (first_fit items token self.now.events (map (with_more more.now) (plain_lines (rows (phrase.Tail least most)))))
            stack.old stack.new) }
        ensures none { IfOk result (λ class. class ≡ None → stack.new ≡ stack.old) }
    {
        let operator = self.tokens[place];
        let power = power(operator);
        let row = Alternative {
            first: Class::Operator(least, most),
            rest: &[
                Symbol::Word(Phrase::Item(power + 1)),
                Symbol::Put(Event::Both(operator)),
                Symbol::Word(Phrase::Tail(least, power)),
            ],
        };
        choose_first(self, &[row], more, place, stack)
    }
}

/// What the tokens build.
fn build(alloc: Global, tokens: &[Lexeme]) -> Result<Rows<Event>, ParseError>
    ensures { Parses result (parse items (phrase.Item 0) [] tokens.now) (λ events built. events ≡ built) }
{
    let mut reading = Reading {
        tokens,
        events: Rows::new(alloc),
    };
    parse(alloc, &mut reading, Phrase::Item(0))?;
    Ok(reading.events)
}

/// What the tokens build, all of them, or which of them can't stand where it stands.
pub fn read(alloc: Global, tokens: &[Lexeme]) -> Result<Rows<Event>, ParseError>
    // What is built is an item that is written so.
    ensures found { IfOk result (λ events. (item : Item) × (events ≡ postorder item) × Spells 0 item tokens.now) }
    // An item that is written so is built, unless memory runs out.
    ensures only { (item : Item) → Spells 0 item tokens.now → Gives result (λ events. events ≡ postorder item) }
    // Where a token is refused, it is the first that can't stand where it stands.
    ensures refused { (at : ℕ) → IsErrOf result (ParseError.Refused at) → IsRefusedAt (Spells 0) tokens.now at }
{
    build(alloc, tokens)
}
