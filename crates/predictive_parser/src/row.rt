// The rows of a word, as code tells them.
use crate::{Otherwise, Symbol};

/// A row of a word.
#[derive(Clone, Copy)]
pub enum Row<'r, C, A, W> {
    /// A class, for the first token, and the symbols that follow the token.
    Plain(C, &'r [Symbol<C, A, W>]),
    /// All rows of another word that name no word themselves, with these symbols behind each.
    Like(W, &'r [Symbol<C, A, W>]),
    /// The rows that `Builder::choose_coded` chooses from.
    Coded,
}

/// The rows of a word, the first first, and what the word does where none of them fits.
#[derive(Clone, Copy)]
pub struct WordRows<'r, C, A, W> {
    pub rows: &'r [Row<'r, C, A, W>],
    pub otherwise: Otherwise<A>,
}
