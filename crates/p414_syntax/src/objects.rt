// Counters, meters and registers (P4_14 1.0.5, "Counters", "Meters", "Registers").
ghost use Rattle.std.specs.Prelude.{◌≡◌, option_copied};
ghost use Rattle.p414_syntax.specs.Attributes.{counts_of, direct_table_of, static_table_of, layout_of, result_field_of, instance_count_of, width_of, min_width_of, is_saturating_of, is_signed_of};

use crate::lexeme::Literal;
use crate::parts::Ref;
use p4x_bits::{Rows, Text};

/// What a counter or a meter counts.
#[derive(Clone, Copy, PartialEq, Eq, Drop)]
pub enum CounterType {
    /// `packets`.
    Packets,
    /// `bytes`.
    Bytes,
    /// `packets_and_bytes`.
    PacketsAndBytes,
}

/// An attribute of a counter, a meter or a register. Each stands at most once in its declaration.
pub enum StateAttr {
    /// `type : WHAT;`.
    Counts(CounterType),
    /// `direct : TABLE;`.
    Direct(Text),
    /// `static : TABLE;`.
    Static(Text),
    /// `layout : HEADER_TYPE;`.
    Layout(Text),
    /// `result : FIELD;`.
    Result(Ref),
    /// `instance_count : NUMBER;`.
    InstanceCount(Literal),
    /// `width : NUMBER;`, in bits.
    Width(Literal),
    /// `min_width : NUMBER;`, in bits.
    MinWidth(Literal),
    /// `saturating;`.
    Saturating,
    /// `signed;`.
    Signed,
}

impl Drop for StateAttr {
    fn drop(self) {
        match self {
            StateAttr::Counts(_a) => {}
            StateAttr::Direct(_a) => {}
            StateAttr::Static(_a) => {}
            StateAttr::Layout(_a) => {}
            StateAttr::Result(_a) => {}
            StateAttr::InstanceCount(_a) => {}
            StateAttr::Width(_a) => {}
            StateAttr::MinWidth(_a) => {}
            StateAttr::Saturating => {}
            StateAttr::Signed => {}
        }
    }
}

/// A counter, a meter or a register: its name and its attributes in order. A counter and a meter have `type`, a
/// register has `width` or `layout`.
pub struct Stateful {
    /// The name.
    pub name: Text,
    /// The attributes in order.
    pub attributes: Rows<StateAttr>,
}

impl Drop for Stateful {
    fn drop(self) {
        let Stateful {
            name: _name,
            attributes: _attributes,
        } = self;
    }
}

impl Stateful {
    /// What a counter or a meter counts: what stands behind `type`. The first such attribute counts.
    pub fn counts(&self) -> Option<CounterType>
        ensures { result ≡ counts_of self.now.attributes }
    {
        for attribute in self.attributes.as_slice() {
            if let StateAttr::Counts(counts) = attribute {
                return Some(*counts);
            }
        }
        None
    }

    /// The table behind `direct`. The first such attribute counts.
    pub fn direct_table(&self) -> Option<&Text>
        ensures { option_copied result ≡ direct_table_of self.now.attributes }
    {
        for attribute in self.attributes.as_slice() {
            if let StateAttr::Direct(table) = attribute {
                return Some(table);
            }
        }
        None
    }

    /// The table behind `static`. The first such attribute counts.
    pub fn static_table(&self) -> Option<&Text>
        ensures { option_copied result ≡ static_table_of self.now.attributes }
    {
        for attribute in self.attributes.as_slice() {
            if let StateAttr::Static(table) = attribute {
                return Some(table);
            }
        }
        None
    }

    /// The header type behind `layout`. The first such attribute counts.
    pub fn layout(&self) -> Option<&Text>
        ensures { option_copied result ≡ layout_of self.now.attributes }
    {
        for attribute in self.attributes.as_slice() {
            if let StateAttr::Layout(layout) = attribute {
                return Some(layout);
            }
        }
        None
    }

    /// The field behind `result`. The first such attribute counts.
    pub fn result_field(&self) -> Option<&Ref>
        ensures { option_copied result ≡ result_field_of self.now.attributes }
    {
        for attribute in self.attributes.as_slice() {
            if let StateAttr::Result(field) = attribute {
                return Some(field);
            }
        }
        None
    }

    /// The number of cells: what stands behind `instance_count`. The first such attribute counts.
    pub fn instance_count(&self) -> Option<Literal>
        ensures { result ≡ instance_count_of self.now.attributes }
    {
        for attribute in self.attributes.as_slice() {
            if let StateAttr::InstanceCount(count) = attribute {
                return Some(*count);
            }
        }
        None
    }

    /// The number of bits behind `width`. The first such attribute counts.
    pub fn width(&self) -> Option<Literal>
        ensures { result ≡ width_of self.now.attributes }
    {
        for attribute in self.attributes.as_slice() {
            if let StateAttr::Width(width) = attribute {
                return Some(*width);
            }
        }
        None
    }

    /// The number of bits behind `min_width`. The first such attribute counts.
    pub fn min_width(&self) -> Option<Literal>
        ensures { result ≡ min_width_of self.now.attributes }
    {
        for attribute in self.attributes.as_slice() {
            if let StateAttr::MinWidth(width) = attribute {
                return Some(*width);
            }
        }
        None
    }

    /// Whether `saturating` stands. The first such attribute counts.
    pub fn is_saturating(&self) -> bool
        ensures { result ≡ is_saturating_of self.now.attributes }
    {
        for attribute in self.attributes.as_slice() {
            if let StateAttr::Saturating = attribute {
                return true;
            }
        }
        false
    }

    /// Whether `signed` stands. The first such attribute counts.
    pub fn is_signed(&self) -> bool
        ensures { result ≡ is_signed_of self.now.attributes }
    {
        for attribute in self.attributes.as_slice() {
            if let StateAttr::Signed = attribute {
                return true;
            }
        }
        false
    }
}
