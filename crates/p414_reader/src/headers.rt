// Header types and metadata, as they are put together.
ghost use Rattle.std.specs.Prelude.{◌≡◌, OnOk};
ghost use Rattle.p414_reader.specs.declared.built.Built.{Built};
ghost use Rattle.p414_reader.specs.internal.Built.{no_headers};
ghost use Rattle.p414_reader.specs.internal.Actions.{put_header, with_headers};

use crate::parts::Parts;
use crate::symbols::HeaderAction;
use p4x_bits::{OutOfMemory, Rows};
use p414_syntax::{Field, FieldWidth, Initial, Initials};
use predictive_parser::ValueStack;
use std::alloc::Global;

/// Stacks of the parts of header types and metadata.
pub struct Headers {
    pub widths: ValueStack<FieldWidth>,
    pub fields: ValueStack<Rows<Field>>,
    pub initials: ValueStack<Rows<Initial>>,
    pub initials_options: ValueStack<Option<Initials>>,
}

impl Drop for Headers {
    fn drop(self) {
        let Headers {
            widths: _widths,
            fields: _fields,
            initials: _initials,
            initials_options: _initials_options,
        } = self;
    }
}

impl Headers {
    /// No parts.
    pub fn new(alloc: Global) -> Self
        ensures { result ≡ no_headers }
    {
        Headers {
            widths: ValueStack::new(alloc),
            fields: ValueStack::new(alloc),
            initials: ValueStack::new(alloc),
            initials_options: ValueStack::new(alloc),
        }
    }

    /// Does the action, on these parts.
    pub fn put(
        &mut self,
        alloc: Global,
        parts: &mut Parts,
        action: HeaderAction,
    ) -> Result<(), OutOfMemory>
        ensures { OnOk result ((b : Built) → put_header action (with_headers parts.old self.old b) ≡ with_headers parts.new self.new b) }
    {
        match action {
            HeaderAction::WidthBits => { self.widths.push(FieldWidth::Bits(parts.take_literal())) }
            HeaderAction::WidthRest => self.widths.push(FieldWidth::Rest),
            HeaderAction::NoFields => self.fields.push(Rows::new(alloc)),
            HeaderAction::AddField => {
                let field = Field {
                    name: parts.take_name(alloc),
                    width: self.widths.pop_or(FieldWidth::Rest),
                    attributes: parts.name_lists.pop_list(alloc),
                };
                self.fields.extend(alloc, field)
            }
            HeaderAction::NoInitials => self.initials_options.push(None),
            HeaderAction::EmptyInitials => self.initials.push(Rows::new(alloc)),
            HeaderAction::AddInitial => {
                let field = parts.take_name(alloc);
                let value = parts.take_number();
                self.initials.extend(alloc, Initial { field, value })
            }
            HeaderAction::SomeInitials(semicolon) => {
                let values = self.initials.pop_list(alloc);
                let initials = Initials { values, semicolon };
                self.initials_options.push(Some(initials))
            }
        }
    }
}
