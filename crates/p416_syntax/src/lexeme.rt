// Tokens without their places.
ghost use Rattle.std.specs.Prelude.{◌≡◌, ◌<◌, length};
ghost use Rattle.p416_syntax.specs.Lines.{annotation_text16, include_text16};

use crate::Mark16;
use p4x_bits::Text;

/// A number as it is written, with its width in bits where it has one (P4_16 1.2, "Literal constants").
#[derive(Clone, Copy, PartialEq, Eq, Drop)]
pub struct Literal16 {
    /// The width, 1 to 128 bits, where one stands in front.
    pub width: Option<u8>,
    /// The value as it is written. A width doesn't cut it.
    pub value: u128,
}

/// The name of an annotation (P4_16 1.2, "Annotations").
#[derive(Clone, Copy, PartialEq, Eq, Drop)]
pub enum Annotation16 {
    /// `@name`.
    Name,
    /// `@field_list`.
    FieldList,
}

impl Annotation16 {
    /// The text of the name with its `@`, in ASCII.
    pub fn text(self) -> &'static [u8]
        ensures is { result.now ≡ annotation_text16 self }
        ensures some { 0 < length result.now }
    {
        match self {
            Annotation16::Name => b"@name",
            Annotation16::FieldList => b"@field_list",
        }
    }
}

/// A line that includes a file that the language knows (P4_16 1.2, "Preprocessing"; the files are this project's own).
#[derive(Clone, Copy, PartialEq, Eq, Drop)]
pub enum Include16 {
    /// `#include <core.p4>`.
    Core,
    /// `#include <v1model.p4>`.
    V1Model,
}

impl Include16 {
    /// The text of the line, in ASCII, without blanks around it.
    pub fn text(self) -> &'static [u8]
        ensures is { result.now ≡ include_text16 self }
        ensures some { 0 < length result.now }
    {
        match self {
            Include16::Core => b"#include <core.p4>",
            Include16::V1Model => b"#include <v1model.p4>",
        }
    }
}

/// A token: a name or word, a number, a mark, a string, the name of an annotation, or an include line.
pub enum Lexeme16 {
    /// A name, or a word.
    Name(Text),
    /// A number.
    Number(Literal16),
    /// A mark.
    Mark(Mark16),
    /// A string, by what stands between its quotes.
    Quoted(Text),
    /// The name of an annotation.
    At(Annotation16),
    /// An include line.
    Include(Include16),
}

impl Drop for Lexeme16 {
    fn drop(self) {
        match self {
            Lexeme16::Name(_a) => {}
            Lexeme16::Number(_a) => {}
            Lexeme16::Mark(_a) => {}
            Lexeme16::Quoted(_a) => {}
            Lexeme16::At(_a) => {}
            Lexeme16::Include(_a) => {}
        }
    }
}
