// Field lists, calculations over them, and the fields that are calculated (P4_14 1.0.5, "Field Lists", "Checksums and
// Hash-value Generators").
use crate::lexeme::Literal;
use crate::parts::{Inst, Ref};
use p4x_bits::{Rows, Text};

/// An item of a field list.
pub enum Item {
    /// `payload`.
    Payload,
    /// A number.
    Number(Literal),
    /// A field.
    Field(Ref),
    /// An instance, or by its name another field list.
    Instance(Inst),
}

impl Drop for Item {
    fn drop(self) {
        match self {
            Item::Payload => {}
            Item::Number(_a) => {}
            Item::Field(_a) => {}
            Item::Instance(_a) => {}
        }
    }
}

/// `field_list NAME { ITEM; .. }`.
pub struct FieldList {
    /// The name.
    pub name: Text,
    /// The items in order.
    pub items: Rows<Item>,
}

impl Drop for FieldList {
    fn drop(self) {
        let FieldList {
            name: _name,
            items: _items,
        } = self;
    }
}

/// `field_list_calculation NAME { input { LIST; .. } algorithm : NAME; output_width : NUMBER; }`.
pub struct FieldListCalculation {
    /// The name.
    pub name: Text,
    /// The names of the field lists in `input`, at least one.
    pub input: Rows<Text>,
    /// The name of the algorithm.
    pub algorithm: Text,
    /// The width of the result in bits.
    pub output_width: Literal,
}

impl Drop for FieldListCalculation {
    fn drop(self) {
        let FieldListCalculation {
            name: _name,
            input: _input,
            algorithm: _algorithm,
            output_width: _output_width,
        } = self;
    }
}

/// What a calculation is used for.
#[derive(Clone, Copy, PartialEq, Eq, Drop)]
pub enum CalcUse {
    /// `update`.
    Update,
    /// `verify`.
    Verify,
}

/// The condition of a calculated field's entry.
pub enum CalcCond {
    /// `valid(INSTANCE)`.
    Valid(Inst),
    /// `FIELD == NUMBER`.
    Equal(Ref, Literal),
}

impl Drop for CalcCond {
    fn drop(self) {
        match self {
            CalcCond::Valid(_a) => {}
            CalcCond::Equal(_a, _b) => {}
        }
    }
}

/// An entry of a calculated field: `update NAME;` or `verify NAME;`, maybe with `if (CONDITION)` before the `;`.
pub struct Calc {
    /// What the calculation is used for.
    pub used_to: CalcUse,
    /// The name of the calculation.
    pub calculation: Text,
    /// The condition, where one is written.
    pub condition: Option<CalcCond>,
}

impl Drop for Calc {
    fn drop(self) {
        let Calc {
            used_to: _used_to,
            calculation: _calculation,
            condition: _condition,
        } = self;
    }
}

/// `calculated_field FIELD { ENTRY .. }`.
pub struct CalculatedField {
    /// The field.
    pub field: Ref,
    /// The entries in order, at least one.
    pub entries: Rows<Calc>,
}

impl Drop for CalculatedField {
    fn drop(self) {
        let CalculatedField {
            field: _field,
            entries: _entries,
        } = self;
    }
}
