// What a parser reads from, and builds.
ghost use Rattle.std.specs.Prelude.{◌≡◌, ◌<◌, List, map, length, true, Some, None, IfOk, OnOk, slice_get};
ghost use Rattle.predictive_parser.specs.Grammar.{Grammar, Line, first_fit, with_more};
ghost use Rattle.predictive_parser.specs.Choices.{Chooses};
ghost use Rattle.predictive_parser.specs.Told.{told};

use crate::{Stack, Symbol, WordRows};
use p4x_bits::OutOfMemory;

/// Tokens that are read in a grammar, and what is built of them so far. A type says what a token is, what
/// is built, the grammar, and of each of its values which tokens it has and what is built.
pub trait Lookahead {
    /// The classes of tokens.
    type Class: Copy;
    /// What is done between the tokens.
    type Action: Copy;
    /// The words of the grammar.
    type Word: Copy;

    // What a token is, as the grammar sees it.
    ghost Token: { Type 0 };

    // What is built, as the grammar sees it.
    ghost Built: { Type 0 };

    ghost grammar: { Grammar Self.Class Self.Action Self.Word Token Built };

    // The rows of each word that code chooses from by a method, since they depend on a number or on the token.
    ghost coded: { Self.Word → List (Line Self.Class Self.Action Self.Word Token) };

    // The tokens that are held.
    ghost tokens: { Self → List Token };

    // What is built so far.
    ghost held: { Self → Built };

    /// How many tokens there are.
    fn count(&self) -> usize
        ensures { result ≡ length (tokens self.now) };

    /// Whether the token at this place is of the class, where so much is built.
    fn accepts(&self, class: Self::Class, place: usize) -> bool
        requires { place < length (tokens self.now) }
        ensures { (token : Token) → slice_get (tokens self.now) place ≡ Some token
            → result ≡ grammar.accepts class token (held self.now) };
}

/// What builds the values of the words of a grammar. After an error nothing is said of it.
pub trait Builder: Lookahead {
    /// Takes the token at this place, which is of the class.
    fn shift(&mut self, class: Self::Class, place: usize) -> Result<(), OutOfMemory>
        requires { place < length (Self.tokens self.old) }
        ensures builds { OnOk result ((token : Self.Token) → slice_get (Self.tokens self.old) place ≡ Some token
            → Self.grammar.accepts class token (Self.held self.old) ≡ true
            → Self.held self.new ≡ Self.grammar.shift class token (Self.held self.old)) }
        ensures tokens { OnOk result (Self.tokens self.new ≡ Self.tokens self.old) };

    /// Does the action.
    fn put(&mut self, action: Self::Action) -> Result<(), OutOfMemory>
        ensures builds { OnOk result (Self.held self.new ≡ Self.grammar.put action (Self.held self.old)) }
        ensures tokens { OnOk result (Self.tokens self.new ≡ Self.tokens self.old) };

    /// The rows of the word, and what it does where none of them fits.
    fn rows(&self, word: Self::Word) -> WordRows<'_, Self::Class, Self::Action, Self::Word>
        ensures rows { told (Self.coded word) result.rows.now ≡ Self.grammar.rows word }
        ensures otherwise { result.otherwise ≡ Self.grammar.otherwise word };

    /// The class of the first of the rows of the word that code tells, if one fits the token at this place. The symbols of
    /// the row that follow the token are put onto the stack, with `more` behind them.
    fn choose_coded(
        &self,
        word: Self::Word,
        more: &[Symbol<Self::Class, Self::Action, Self::Word>],
        place: usize,
        stack: &mut Stack<Self::Class, Self::Action, Self::Word>,
    ) -> Result<Option<Self::Class>, OutOfMemory>
        requires { place < length (Self.tokens self.now) }
        ensures chooses { IfOk result (λ class. (token : Self.Token) → slice_get (Self.tokens self.now) place ≡ Some token
            → Chooses class (first_fit Self.grammar token (Self.held self.now) (map (with_more more.now) (Self.coded word)))
            stack.old stack.new) }
        ensures none { IfOk result (λ class. class ≡ None → stack.new ≡ stack.old) };
}
