// The words that are reserved.
ghost use Rattle.std.specs.Prelude.{◌≡◌};
ghost use Rattle.p416_syntax.specs.Keywords.{keyword_text16, is_among16, is_reserved16};

/// A word that the grammar quotes (P4_16 1.2, "P4 grammar"; which words it quotes is this project's own). Each is
/// reserved: it is never an identifier.
#[derive(Clone, Copy, Drop)]
pub enum Keyword16 {
    /// `V1Switch`.
    V1Switch,
    /// `main`.
    Main,
    /// `header`.
    Header,
    /// `bit`.
    Bit,
    /// `struct`.
    Struct,
    /// `parser`.
    Parser,
    /// `control`.
    Control,
    /// `apply`.
    Apply,
    /// `bool`.
    Bool,
    /// `in`.
    In,
    /// `out`.
    Out,
    /// `inout`.
    InOut,
    /// `counter`.
    Counter,
    /// `direct_counter`.
    DirectCounter,
    /// `register`.
    Register,
    /// `meter`.
    Meter,
    /// `action`.
    Action,
    /// `table`.
    Table,
    /// `key`.
    Key,
    /// `actions`.
    Actions,
    /// `NoAction`.
    NoAction,
    /// `size`.
    Size,
    /// `counters`.
    Counters,
    /// `default_action`.
    DefaultAction,
    /// `state`.
    State,
    /// `transition`.
    Transition,
    /// `select`.
    Select,
    /// `accept`.
    Accept,
    /// `reject`.
    Reject,
    /// `default`.
    Default,
    /// `_`.
    Underscore,
    /// `if`.
    If,
    /// `else`.
    Else,
    /// `switch`.
    Switch,
    /// `action_run`.
    ActionRun,
    /// `true`.
    True,
    /// `false`.
    False,
    /// `error`.
    Error,
}

/// All of them.
const KEYWORDS: [Keyword16; 38] = [
    Keyword16::V1Switch,
    Keyword16::Main,
    Keyword16::Header,
    Keyword16::Bit,
    Keyword16::Struct,
    Keyword16::Parser,
    Keyword16::Control,
    Keyword16::Apply,
    Keyword16::Bool,
    Keyword16::In,
    Keyword16::Out,
    Keyword16::InOut,
    Keyword16::Counter,
    Keyword16::DirectCounter,
    Keyword16::Register,
    Keyword16::Meter,
    Keyword16::Action,
    Keyword16::Table,
    Keyword16::Key,
    Keyword16::Actions,
    Keyword16::NoAction,
    Keyword16::Size,
    Keyword16::Counters,
    Keyword16::DefaultAction,
    Keyword16::State,
    Keyword16::Transition,
    Keyword16::Select,
    Keyword16::Accept,
    Keyword16::Reject,
    Keyword16::Default,
    Keyword16::Underscore,
    Keyword16::If,
    Keyword16::Else,
    Keyword16::Switch,
    Keyword16::ActionRun,
    Keyword16::True,
    Keyword16::False,
    Keyword16::Error,
];

impl Keyword16 {
    /// The text of the word, in ASCII.
    pub fn text(self) -> &'static [u8]
        ensures { result.now ≡ keyword_text16 self }
    {
        match self {
            Keyword16::V1Switch => b"V1Switch",
            Keyword16::Main => b"main",
            Keyword16::Header => b"header",
            Keyword16::Bit => b"bit",
            Keyword16::Struct => b"struct",
            Keyword16::Parser => b"parser",
            Keyword16::Control => b"control",
            Keyword16::Apply => b"apply",
            Keyword16::Bool => b"bool",
            Keyword16::In => b"in",
            Keyword16::Out => b"out",
            Keyword16::InOut => b"inout",
            Keyword16::Counter => b"counter",
            Keyword16::DirectCounter => b"direct_counter",
            Keyword16::Register => b"register",
            Keyword16::Meter => b"meter",
            Keyword16::Action => b"action",
            Keyword16::Table => b"table",
            Keyword16::Key => b"key",
            Keyword16::Actions => b"actions",
            Keyword16::NoAction => b"NoAction",
            Keyword16::Size => b"size",
            Keyword16::Counters => b"counters",
            Keyword16::DefaultAction => b"default_action",
            Keyword16::State => b"state",
            Keyword16::Transition => b"transition",
            Keyword16::Select => b"select",
            Keyword16::Accept => b"accept",
            Keyword16::Reject => b"reject",
            Keyword16::Default => b"default",
            Keyword16::Underscore => b"_",
            Keyword16::If => b"if",
            Keyword16::Else => b"else",
            Keyword16::Switch => b"switch",
            Keyword16::ActionRun => b"action_run",
            Keyword16::True => b"true",
            Keyword16::False => b"false",
            Keyword16::Error => b"error",
        }
    }
}

/// Whether the octets are a reserved word.
pub fn is_reserved(text: &[u8]) -> bool
    ensures { result ≡ is_reserved16 text.now }
{
    is_among(text, &KEYWORDS)
}

/// Whether the octets are one of the words.
fn is_among(text: &[u8], words: &[Keyword16]) -> bool
    ensures { result ≡ is_among16 text.now words.now }
{
    for other in words {
        if text == other.text() {
            return true;
        }
    }
    false
}
