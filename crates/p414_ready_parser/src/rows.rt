// The rows of a parser that is ready to run (P4_14 1.0.5, "Parser Specification").
use p4x_bits::Rows;
use p414_slots::FieldSlot;

/// A value of a parser state.
#[derive(Clone, Copy, PartialEq, Eq, Drop)]
pub enum ReadyValue {
    /// So many bits that aren't extracted yet, behind so many others.
    Current {
        /// The bits in front of them.
        offset: u32,
        /// The bits.
        width: u8,
    },
    /// A field of the element that was extracted last, which is one of this instance.
    Latest {
        /// The instance.
        instance: u32,
        /// The field.
        field: u32,
    },
    /// A field.
    Field(FieldSlot),
    /// A number, kept modulo the width of what gets it.
    Number(u128),
}

/// A statement of a parser state.
#[derive(Clone, Copy, PartialEq, Eq, Drop)]
pub enum ReadyStatement {
    /// The next bits become the fields of an element of an instance.
    Extract {
        /// The instance.
        instance: u32,
        /// The element, or none where it is the next one of a stack.
        element: Option<u32>,
        /// How many bits its fields have together.
        bits: u32,
    },
    /// A field gets a value modulo its width.
    Set {
        /// The field.
        slot: FieldSlot,
        /// Its bits.
        width: u8,
        /// The value.
        value: ReadyValue,
    },
}

/// One of the values that a select joins.
#[derive(Clone, Copy, PartialEq, Eq, Drop)]
pub struct SelectPart {
    /// The value.
    pub value: ReadyValue,
    /// How many bits of it are joined.
    pub width: u8,
}

/// Which keys a row of a select takes.
#[derive(Clone, Copy, PartialEq, Eq, Drop)]
pub enum CaseTest {
    /// Each one.
    Any,
    /// This one.
    Equal(u128),
    /// Those that have these bits on a mask.
    Masked {
        /// The mask.
        mask: u128,
        /// The bits on it.
        value: u128,
    },
}

/// Where parsing goes on.
#[derive(Clone, Copy, PartialEq, Eq, Drop)]
pub enum Next {
    /// In the state with this number.
    State(u32),
    /// In the control `ingress`: the packet is accepted.
    Accept,
    /// Nowhere: p4_pe_unhandled_select, as for `parse_error`.
    Unhandled,
}

/// A row of a select.
#[derive(Clone, Copy, PartialEq, Eq, Drop)]
pub struct CaseRow {
    /// Which keys it takes.
    pub test: CaseTest,
    /// Where it leads.
    pub next: Next,
}

/// How a parser state ends.
pub enum ReadyEnd {
    /// By the first row that takes the joined values, and unhandled where none does. Values that the key can't have are in no
    /// row.
    Select {
        /// The values that are joined, first value first.
        parts: Rows<SelectPart>,
        /// The rows in order.
        rows: Rows<CaseRow>,
    },
    /// Always there.
    To(Next),
}

impl Drop for ReadyEnd {
    fn drop(self) {
        match self {
            ReadyEnd::Select {
                parts: _parts,
                rows: _rows,
            } => {}
            ReadyEnd::To(_a) => {}
        }
    }
}

/// A parser state.
pub struct ReadyState {
    /// The statements in order.
    pub statements: Rows<ReadyStatement>,
    /// How it ends.
    pub end: ReadyEnd,
}

impl Drop for ReadyState {
    fn drop(self) {
        let ReadyState {
            statements: _statements,
            end: _end,
        } = self;
    }
}

/// An initial value of a field of metadata.
#[derive(Clone, Copy, PartialEq, Eq, Drop)]
pub struct InitialRow {
    /// The field.
    pub slot: FieldSlot,
    /// The value, modulo the field's width.
    pub value: u128,
}
