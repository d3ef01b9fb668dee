// Attributes of header types, tables, counters, meters and registers, by the words that they begin with.
ghost use Rattle.std.specs.Prelude.{◌≡◌, ℕ, List, map};
ghost use Rattle.p414_syntax.specs.Written.{table_word, state_word};
ghost use Rattle.p414_syntax.specs.Conditions.{is_among};
ghost use Rattle.p414_syntax.specs.Keywords.{keyword_text};
ghost use Rattle.p414_reader.specs.internal.Forest.{tail_text};

use p414_syntax::{Keyword, StateAttr, TableAttr, TypeTail};

/// What begins with a word of its own.
pub trait Worded {
    // The octets of the word.
    ghost text: { Self → List ℕ };

    /// The word that it begins with.
    fn keyword(&self) -> Keyword
        ensures { keyword_text result ≡ text self.now };
}

impl Worded for TypeTail {
    ghost text = { tail_text };

    fn keyword(&self) -> Keyword {
        match self {
            TypeTail::Length(_) => Keyword::Length,
            TypeTail::MaxLength(_) => Keyword::MaxLength,
        }
    }
}

impl Worded for TableAttr {
    ghost text = { table_word };

    fn keyword(&self) -> Keyword {
        match self {
            TableAttr::Reads(_) => Keyword::Reads,
            TableAttr::Actions(_) => Keyword::Actions,
            TableAttr::MinSize(_) => Keyword::MinSize,
            TableAttr::MaxSize(_) => Keyword::MaxSize,
            TableAttr::Size(_) => Keyword::Size,
            TableAttr::SupportTimeout(_) => Keyword::SupportTimeout,
            TableAttr::DefaultAction(_, _) => Keyword::DefaultAction,
            TableAttr::ActionProfile(_) => Keyword::ActionProfile,
        }
    }
}

impl Worded for StateAttr {
    ghost text = { state_word };

    fn keyword(&self) -> Keyword {
        match self {
            StateAttr::Counts(_) => Keyword::Counts,
            StateAttr::Direct(_) => Keyword::Direct,
            StateAttr::Static(_) => Keyword::Static,
            StateAttr::Layout(_) => Keyword::Layout,
            StateAttr::Result(_) => Keyword::Result,
            StateAttr::InstanceCount(_) => Keyword::InstanceCount,
            StateAttr::Width(_) => Keyword::Width,
            StateAttr::MinWidth(_) => Keyword::MinWidth,
            StateAttr::Saturating => Keyword::Saturating,
            StateAttr::Signed => Keyword::Signed,
        }
    }
}

/// Whether one of these begins with the word.
pub fn has_word<T: Worded>(items: &[T], word: &[u8]) -> bool
    ensures { result ≡ is_among word.now (map T.text items.now) }
{
    items.iter().any(|item| word == text_of(item))
}

/// The octets of the word that it begins with.
fn text_of<T: Worded>(item: &T) -> &'static [u8]
    ensures { result.now ≡ T.text item.now }
{
    item.keyword().text()
}
