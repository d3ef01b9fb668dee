// The words that the grammar quotes.
ghost use Rattle.std.specs.Prelude.{◌≡◌, IfOk};
ghost use Rattle.p414_syntax.specs.Keywords.{keyword_text};

use p4x_bits::{OutOfMemory, Text};
use std::alloc::Global;

/// A word that the grammar quotes (P4_14 1.0.5, "Summary of P4 BNF"). None is reserved everywhere.
#[derive(Clone, Copy, Drop)]
pub enum Keyword {
    /// `header_type`.
    HeaderType,
    /// `fields`.
    Fields,
    /// `length`.
    Length,
    /// `max_length`.
    MaxLength,
    /// `header`.
    Header,
    /// `metadata`.
    Metadata,
    /// `field_list`.
    FieldList,
    /// `field_list_calculation`.
    FieldListCalculation,
    /// `input`.
    Input,
    /// `algorithm`.
    Algorithm,
    /// `output_width`.
    OutputWidth,
    /// `calculated_field`.
    CalculatedField,
    /// `update`.
    Update,
    /// `verify`.
    Verify,
    /// `if`.
    If,
    /// `valid`.
    Valid,
    /// `parser`.
    Parser,
    /// `extract`.
    Extract,
    /// `set_metadata`.
    SetMetadata,
    /// `current`.
    Current,
    /// `latest`.
    Latest,
    /// `return`.
    Return,
    /// `select`.
    Select,
    /// `default`.
    Default,
    /// `parse_error`.
    ParseError,
    /// `mask`.
    Mask,
    /// `action`.
    Action,
    /// `table`.
    Table,
    /// `reads`.
    Reads,
    /// `actions`.
    Actions,
    /// `min_size`.
    MinSize,
    /// `max_size`.
    MaxSize,
    /// `size`.
    Size,
    /// `support_timeout`.
    SupportTimeout,
    /// `true`.
    True,
    /// `false`.
    False,
    /// `and`.
    And,
    /// `or`.
    Or,
    /// `not`.
    Not,
    /// `default_action`.
    DefaultAction,
    /// `action_profile`.
    ActionProfile,
    /// `counter`.
    Counter,
    /// `meter`.
    Meter,
    /// `register`.
    Register,
    /// `type`.
    Counts,
    /// `packets`.
    Packets,
    /// `bytes`.
    Bytes,
    /// `packets_and_bytes`.
    PacketsAndBytes,
    /// `direct`.
    Direct,
    /// `static`.
    Static,
    /// `layout`.
    Layout,
    /// `result`.
    Result,
    /// `instance_count`.
    InstanceCount,
    /// `width`.
    Width,
    /// `min_width`.
    MinWidth,
    /// `saturating`.
    Saturating,
    /// `signed`.
    Signed,
    /// `control`.
    Control,
    /// `apply`.
    Apply,
    /// `else`.
    Else,
    /// `hit`.
    Hit,
    /// `miss`.
    Miss,
    /// `payload`.
    Payload,
    /// `next`.
    Next,
    /// `last`.
    Last,
    /// `parser_value_set`.
    ParserValueSet,
    /// `parser_exception`.
    ParserException,
    /// `action_selector`.
    ActionSelector,
}

impl Keyword {
    /// The text of the word, in ASCII.
    pub fn text(self) -> &'static [u8]
        ensures { result.now ≡ keyword_text self }
    {
        match self {
            Keyword::HeaderType => b"header_type",
            Keyword::Fields => b"fields",
            Keyword::Length => b"length",
            Keyword::MaxLength => b"max_length",
            Keyword::Header => b"header",
            Keyword::Metadata => b"metadata",
            Keyword::FieldList => b"field_list",
            Keyword::FieldListCalculation => b"field_list_calculation",
            Keyword::Input => b"input",
            Keyword::Algorithm => b"algorithm",
            Keyword::OutputWidth => b"output_width",
            Keyword::CalculatedField => b"calculated_field",
            Keyword::Update => b"update",
            Keyword::Verify => b"verify",
            Keyword::If => b"if",
            Keyword::Valid => b"valid",
            Keyword::Parser => b"parser",
            Keyword::Extract => b"extract",
            Keyword::SetMetadata => b"set_metadata",
            Keyword::Current => b"current",
            Keyword::Latest => b"latest",
            Keyword::Return => b"return",
            Keyword::Select => b"select",
            Keyword::Default => b"default",
            Keyword::ParseError => b"parse_error",
            Keyword::Mask => b"mask",
            Keyword::Action => b"action",
            Keyword::Table => b"table",
            Keyword::Reads => b"reads",
            Keyword::Actions => b"actions",
            Keyword::MinSize => b"min_size",
            Keyword::MaxSize => b"max_size",
            Keyword::Size => b"size",
            Keyword::SupportTimeout => b"support_timeout",
            Keyword::True => b"true",
            Keyword::False => b"false",
            Keyword::And => b"and",
            Keyword::Or => b"or",
            Keyword::Not => b"not",
            Keyword::DefaultAction => b"default_action",
            Keyword::ActionProfile => b"action_profile",
            Keyword::Counter => b"counter",
            Keyword::Meter => b"meter",
            Keyword::Register => b"register",
            Keyword::Counts => b"type",
            Keyword::Packets => b"packets",
            Keyword::Bytes => b"bytes",
            Keyword::PacketsAndBytes => b"packets_and_bytes",
            Keyword::Direct => b"direct",
            Keyword::Static => b"static",
            Keyword::Layout => b"layout",
            Keyword::Result => b"result",
            Keyword::InstanceCount => b"instance_count",
            Keyword::Width => b"width",
            Keyword::MinWidth => b"min_width",
            Keyword::Saturating => b"saturating",
            Keyword::Signed => b"signed",
            Keyword::Control => b"control",
            Keyword::Apply => b"apply",
            Keyword::Else => b"else",
            Keyword::Hit => b"hit",
            Keyword::Miss => b"miss",
            Keyword::Payload => b"payload",
            Keyword::Next => b"next",
            Keyword::Last => b"last",
            Keyword::ParserValueSet => b"parser_value_set",
            Keyword::ParserException => b"parser_exception",
            Keyword::ActionSelector => b"action_selector",
        }
    }

    /// A copy of the text of the word, or want of memory.
    pub fn to_text(self, alloc: Global) -> Result<Text, OutOfMemory>
        ensures { IfOk result (λ text. text ≡ keyword_text self) }
    {
        Text::from_slice(alloc, self.text())
    }
}
