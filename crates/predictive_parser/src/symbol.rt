// The symbols that the rows of a grammar are made of.

/// A symbol that a parser has still to find: of the classes `C`, the actions `A` and the words `W`.
#[derive(Clone, Copy, PartialEq, Eq)]
pub enum Symbol<C, A, W> {
    /// A token of this class.
    Token(C),
    /// No token. The action changes what is built.
    Put(A),
    /// What this word of the grammar stands for.
    Word(W),
}

/// What a word of the grammar does where none of its rows fits the next token.
#[derive(Clone, Copy, PartialEq, Eq)]
pub enum Otherwise<A> {
    /// The word can't stand for no token, so the token is refused.
    Refuse,
    /// The word stands for no token, and what is built stays as it is.
    Pass,
    /// The word stands for no token, and the action changes what is built.
    Build(A),
}
