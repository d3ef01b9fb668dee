// The reserved word that a text is.
ghost use Rattle.std.specs.Prelude.{◌≡◌};
ghost use Rattle.std.specs.List.{filter};
ghost use Rattle.p416_syntax.specs.Keywords.{all_keywords16, is_reserved16};
ghost use Rattle.p416_syntax.specs.Tokens.{keyword_among};
ghost use Rattle.p416_reader.specs.internal.Words.{begins_with};

use p416_syntax::Keyword16;
use token_division::octets::octet_at;

/// The reserved word that the octets are, if they are one.
pub fn reserved_word(text: &[u8]) -> Option<Keyword16>
    ensures { result ≡ keyword_among text.now all_keywords16 }
{
    keyword_among(text, words_with(octet_at(text, 0)))
}

/// Whether the octets are a reserved word.
pub fn is_reserved(text: &[u8]) -> bool
    ensures { result ≡ is_reserved16 text.now }
{
    reserved_word(text).is_some()
}

/// The reserved words that begin with this octet.
fn words_with(first: u8) -> &'static [Keyword16]
    ensures { result.now ≡ filter (begins_with first) all_keywords16 }
{
    match first {
        b'V' => &[Keyword16::V1Switch],
        b'm' => &[Keyword16::Main, Keyword16::Meter],
        b'h' => &[Keyword16::Header],
        b'b' => &[Keyword16::Bit, Keyword16::Bool],
        b's' => &[
            Keyword16::Struct,
            Keyword16::Size,
            Keyword16::State,
            Keyword16::Select,
            Keyword16::Switch,
        ],
        b'p' => &[Keyword16::Parser],
        b'c' => &[Keyword16::Control, Keyword16::Counter, Keyword16::Counters],
        b'a' => &[
            Keyword16::Apply,
            Keyword16::Action,
            Keyword16::Actions,
            Keyword16::Accept,
            Keyword16::ActionRun,
        ],
        b'i' => &[Keyword16::In, Keyword16::InOut, Keyword16::If],
        b'o' => &[Keyword16::Out],
        b'd' => &[
            Keyword16::DirectCounter,
            Keyword16::DefaultAction,
            Keyword16::Default,
        ],
        b'r' => &[Keyword16::Register, Keyword16::Reject],
        b't' => &[Keyword16::Table, Keyword16::Transition, Keyword16::True],
        b'k' => &[Keyword16::Key],
        b'N' => &[Keyword16::NoAction],
        b'_' => &[Keyword16::Underscore],
        b'e' => &[Keyword16::Else, Keyword16::Error],
        b'f' => &[Keyword16::False],
        _ => &[],
    }
}

/// The first of these words with this text.
fn keyword_among(text: &[u8], words: &[Keyword16]) -> Option<Keyword16>
    ensures { result ≡ keyword_among text.now words.now }
{
    for word in words {
        if text == word.text() {
            return Some(*word);
        }
    }
    None
}
