// The tokens of a text, as the grammar sees them.
ghost use Rattle.std.specs.Prelude.{◌≡◌, ◌<◌, length, Some, slice_get};
ghost use Rattle.p416_reader.specs.Seen.{seen16};
ghost use Rattle.p416_reader.specs.internal.Lexemes.{seen_of, IsAtHand};

use crate::token::{TokenView, view_of};
use p416_tok::Token16;
use std::marker::Model;

/// The tokens of a text as the grammar sees them, with one of them at hand. Contracts see the list of them.
#[derive(Drop)]
pub struct SeenTokens<'t> {
    text: &'t [u8],
    tokens: &'t [Token16],
    at: usize,
    token: TokenView<'t>,
}

impl<'t> Model for SeenTokens<'t> {
    ghost use Rattle.std.specs.Prelude.{List};
    ghost use Rattle.p416_syntax.specs.Tokens.{Seen16};
    ghost use Rattle.p416_reader.specs.Seen.{seen16};
    ghost use Rattle.p416_reader.specs.internal.Lexemes.{IsAtHand};

    ghost Value = { List Seen16 };

    ghost view = { λ s. seen16 s.text.now s.tokens.now };

    ghost invariant = { λ s. IsAtHand s.text.now s.tokens.now s.at s.token };
}

impl<'t> SeenTokens<'t> {
    /// All tokens of a text, with the first at hand.
    pub fn new(text: &'t [u8], tokens: &'t [Token16]) -> Self
        ensures { result ≡ seen16 text.now tokens.now }
    {
        SeenTokens {
            text,
            tokens,
            at: 0,
            token: view_or_joined(text, tokens, 0),
        }
    }

    /// How many tokens there are.
    #[tactic(auto, using(crate::proofs::SeenTokens::as_many))]
    pub fn len(&self) -> usize
        ensures { result ≡ length self.now }
    {
        self.tokens.len()
    }

    /// The token at this place. It is looked up in the text where it isn't at hand.
    #[tactic(auto, using(crate::proofs::SeenTokens::at_hand))]
    pub fn token_at(&self, place: usize) -> TokenView<'t>
        requires { place < length self.now }
        ensures { slice_get self.now place ≡ Some (seen_of result) }
    {
        if place == self.at {
            self.token
        } else {
            view_or_joined(self.text, self.tokens, place)
        }
    }

    /// Has the token behind this place at hand, if there is one.
    pub fn go_behind(&mut self, place: usize)
        ensures { self.new ≡ self.old }
    {
        let next = place.saturating_add(1);
        self.token = view_or_joined(self.text, self.tokens, next);
        self.at = next;
    }
}

/// The token at this place, where it lies in the text; behind the last, a `>`.
#[tactic(auto, using(crate::proofs::SeenTokens::none_as))]
fn view_or_joined<'t>(text: &'t [u8], tokens: &'t [Token16], place: usize) -> TokenView<'t>
    ensures { IsAtHand text.now tokens.now place result }
{
    match tokens.get(place) {
        Some(token) => view_of(text, tokens, place, token),
        None => TokenView::Joined,
    }
}
