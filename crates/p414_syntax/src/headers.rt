// Header types, header instances and metadata (P4_14 1.0.5, "Headers and Fields").
ghost use Rattle.std.specs.Prelude.{◌≡◌, map};
ghost use Rattle.p414_syntax.specs.Attributes.{initials_of, length_of, max_length_of};
ghost use Rattle.p414_syntax.specs.Views.{header_type_tree, tail_tree, TailsWithin};

use crate::heads::{ExprView, expr_view};
use crate::lexeme::Literal;
use crate::nodes::Nodes;
use crate::parts::Number;
use p4x_bits::{Rows, Text};
use std::marker::Model;

/// The width of a field.
#[derive(Clone, Copy, PartialEq, Eq, Drop)]
pub enum FieldWidth {
    /// A number of bits.
    Bits(Literal),
    /// `*`.
    Rest,
}

/// A field of a header type: `NAME : WIDTH;`, maybe with attributes in parentheses before the `;`.
pub struct Field {
    /// The name.
    pub name: Text,
    /// The width.
    pub width: FieldWidth,
    /// The attributes in order. Where there are none, no parentheses stand.
    pub attributes: Rows<Text>,
}

impl Drop for Field {
    fn drop(self) {
        let Field {
            name: _name,
            width: _width,
            attributes: _attributes,
        } = self;
    }
}

/// An attribute of a header type behind its fields. Each stands at most once. The expression is a place in the nodes.
#[derive(Clone, Copy, PartialEq, Eq, Drop)]
pub enum TypeTail {
    /// `length : EXPRESSION;`.
    Length(usize),
    /// `max_length : EXPRESSION;`.
    MaxLength(usize),
}

/// `header_type NAME { fields { FIELD .. } ATTRIBUTE .. }`. Contracts see each expression as a tree.
pub struct HeaderType {
    name: Text,
    fields: Rows<Field>,
    tails: Rows<TypeTail>,
    nodes: Nodes,
}

impl Drop for HeaderType {
    fn drop(self) {
        let HeaderType {
            name: _name,
            fields: _fields,
            tails: _tails,
            nodes: _nodes,
        } = self;
    }
}

impl Model for HeaderType {
    ghost use Rattle.p414_syntax.specs.Views.{HeaderTypeTree};
    ghost use Rattle.p414_syntax.specs.Code.{coded_header_type};

    ghost Value = { HeaderTypeTree };

    ghost coded = { coded_header_type };

    ghost use Rattle.p414_syntax.specs.Views.{header_type_tree, TailsWithin};

    ghost view = { λ h. header_type_tree h.name h.fields h.tails h.nodes };

    ghost invariant = { λ h. TailsWithin h.nodes h.tails };
}

/// The parts of a header type, borrowed.
#[derive(Clone, Copy, Drop)]
pub struct HeaderTypeParts<'a> {
    /// The name.
    pub name: &'a Text,
    /// The fields in order.
    pub fields: &'a Rows<Field>,
    /// The attributes behind the fields, with the places of their expressions.
    pub tails: &'a Rows<TypeTail>,
    /// The expressions.
    pub nodes: &'a Nodes,
}

impl HeaderType {
    /// A header type of its parts. Each attribute's expression is a place in the nodes. It takes no memory.
    pub fn new(name: Text, fields: Rows<Field>, tails: Rows<TypeTail>, nodes: Nodes) -> Self
        requires { TailsWithin nodes tails }
        ensures { result ≡ header_type_tree name fields tails nodes }
    {
        HeaderType {
            name,
            fields,
            tails,
            nodes,
        }
    }

    /// The parts, with each place that they name among the nodes.
    pub fn parts(&self) -> HeaderTypeParts<'_>
        ensures name { result.name.now ≡ self.now.name }
        ensures fields { result.fields.now ≡ self.now.fields }
        ensures tails { map (tail_tree result.nodes.now) result.tails.now ≡ self.now.tails }
        ensures within { TailsWithin result.nodes.now result.tails.now }
    {
        HeaderTypeParts {
            name: &self.name,
            fields: &self.fields,
            tails: &self.tails,
            nodes: &self.nodes,
        }
    }

    /// The name.
    pub fn name(&self) -> &Text
        ensures { result.now ≡ self.now.name }
    {
        &self.name
    }

    /// The fields in order.
    pub fn fields(&self) -> &[Field]
        ensures { result.now ≡ self.now.fields }
    {
        self.fields.as_slice()
    }

    /// The expression behind `length`. The first such attribute counts.
    pub fn length(&self) -> Option<ExprView<'_>>
        ensures { result ≡ length_of self.now.tails }
    {
        first_length(&self.nodes, self.tails.as_slice())
    }

    /// The expression behind `max_length`. The first such attribute counts.
    pub fn max_length(&self) -> Option<ExprView<'_>>
        ensures { result ≡ max_length_of self.now.tails }
    {
        first_max_length(&self.nodes, self.tails.as_slice())
    }
}

/// The expression behind the first `length`.
fn first_length<'a>(nodes: &'a Nodes, tails: &[TypeTail]) -> Option<ExprView<'a>>
    requires { TailsWithin nodes.now tails.now }
    ensures { result ≡ length_of (map (tail_tree nodes.now) tails.now) }
{
    for tail in tails {
        if let TypeTail::Length(place) = tail {
            return Some(expr_view(nodes, *place));
        }
    }
    None
}

/// The expression behind the first `max_length`.
fn first_max_length<'a>(nodes: &'a Nodes, tails: &[TypeTail]) -> Option<ExprView<'a>>
    requires { TailsWithin nodes.now tails.now }
    ensures { result ≡ max_length_of (map (tail_tree nodes.now) tails.now) }
{
    for tail in tails {
        if let TypeTail::MaxLength(place) = tail {
            return Some(expr_view(nodes, *place));
        }
    }
    None
}

/// `header TYPE NAME;`, or `header TYPE NAME[SIZE];` for a header stack.
pub struct Header {
    /// The name of the header type.
    pub header_type: Text,
    /// The name of the instance.
    pub name: Text,
    /// The number of elements of a stack.
    pub size: Option<Literal>,
}

impl Drop for Header {
    fn drop(self) {
        let Header {
            header_type: _header_type,
            name: _name,
            size: _size,
        } = self;
    }
}

/// The initial value of a metadata field: `NAME : NUMBER;`.
#[derive(Drop)]
pub struct Initial {
    /// The name of the field.
    pub field: Text,
    /// The value.
    pub value: Number,
}

/// The initial values of a metadata instance.
#[derive(Drop)]
pub struct Initials {
    /// The values in order.
    pub values: Rows<Initial>,
    /// Whether a `;` stands behind the braces.
    pub semicolon: bool,
}

/// `metadata TYPE NAME;`, or `metadata TYPE NAME { INITIAL .. }`, maybe with a `;` behind the braces.
pub struct Metadata {
    /// The name of the header type.
    pub header_type: Text,
    /// The name of the instance.
    pub name: Text,
    /// The initial values, where braces stand.
    pub initials: Option<Initials>,
}

impl Drop for Metadata {
    fn drop(self) {
        let Metadata {
            header_type: _header_type,
            name: _name,
            initials: _initials,
        } = self;
    }
}

impl Metadata {
    /// The initial values in order; none where no braces stand.
    pub fn initial_values(&self) -> &[Initial]
        ensures { result.now ≡ initials_of self.now.initials }
    {
        match &self.initials {
            Some(initials) => initials.values.as_slice(),
            None => &[],
        }
    }
}
