// What has a name.
ghost use Rattle.std.specs.Prelude.{◌≡◌, ℕ, List};

use crate::actions::Action;
use crate::calculations::{FieldList, FieldListCalculation};
use crate::control::Control;
use crate::headers::{Field, Header, HeaderType, Metadata};
use crate::objects::Stateful;
use crate::parsers::Parser;
use crate::syntax::LeftOut;
use crate::tables::Table;
use p4x_bits::Text;

/// What is declared by a name.
pub trait Named {
    ghost text: { Self → List ℕ };

    /// The octets of the name. It takes no memory.
    fn name_text(&self) -> &[u8]
        ensures { result.now ≡ text self.now };
}

impl Named for Text {
    ghost text = { λ t. t };

    fn name_text(&self) -> &[u8] {
        self.as_slice()
    }
}

impl Named for Field {
    ghost text = { λ x. x.name };

    fn name_text(&self) -> &[u8] {
        self.name.as_slice()
    }
}

impl Named for HeaderType {
    ghost text = { λ x. x.name };

    fn name_text(&self) -> &[u8] {
        self.name().as_slice()
    }
}

impl Named for Header {
    ghost text = { λ x. x.name };

    fn name_text(&self) -> &[u8] {
        self.name.as_slice()
    }
}

impl Named for Metadata {
    ghost text = { λ x. x.name };

    fn name_text(&self) -> &[u8] {
        self.name.as_slice()
    }
}

impl Named for FieldList {
    ghost text = { λ x. x.name };

    fn name_text(&self) -> &[u8] {
        self.name.as_slice()
    }
}

impl Named for FieldListCalculation {
    ghost text = { λ x. x.name };

    fn name_text(&self) -> &[u8] {
        self.name.as_slice()
    }
}

impl Named for Parser {
    ghost text = { λ x. x.name };

    fn name_text(&self) -> &[u8] {
        self.name.as_slice()
    }
}

impl Named for Action {
    ghost text = { λ x. x.name };

    fn name_text(&self) -> &[u8] {
        self.name.as_slice()
    }
}

impl Named for Table {
    ghost text = { λ x. x.name };

    fn name_text(&self) -> &[u8] {
        self.name.as_slice()
    }
}

impl Named for Stateful {
    ghost text = { λ x. x.name };

    fn name_text(&self) -> &[u8] {
        self.name.as_slice()
    }
}

impl Named for Control {
    ghost text = { λ x. x.name };

    fn name_text(&self) -> &[u8] {
        self.name().as_slice()
    }
}

impl Named for LeftOut {
    ghost text = { λ x. x.name };

    fn name_text(&self) -> &[u8] {
        self.name.as_slice()
    }
}
