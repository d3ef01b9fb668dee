// Tables, as they are put together.
ghost use Rattle.std.specs.Prelude.{◌≡◌, OnOk, [], ◌∷◌, None};
ghost use Rattle.predictive_parser.specs.Values.{newest, older, extended};
ghost use Rattle.p414_reader.specs.declared.built.Built.{Built};
ghost use Rattle.p414_reader.specs.internal.Built.{no_tables};
ghost use Rattle.p414_reader.specs.internal.Actions.{put_table, last_name, last_instance, key_of, with_tables};

use crate::parts::Parts;
use crate::symbols::TableAction;
use p4x_bits::{OutOfMemory, Rows, Text};
use p414_syntax::{Inst, Read, ReadKey, Ref, TableAttr};
use predictive_parser::ValueStack;
use std::alloc::Global;

/// Stacks of the parts of tables.
pub struct Tables {
    pub reads: ValueStack<Rows<Read>>,
    pub attributes: ValueStack<Rows<TableAttr>>,
}

impl Drop for Tables {
    fn drop(self) {
        let Tables {
            reads: _reads,
            attributes: _attributes,
        } = self;
    }
}

impl Tables {
    /// No parts.
    pub fn new(alloc: Global) -> Self
        ensures { result ≡ no_tables }
    {
        Tables {
            reads: ValueStack::new(alloc),
            attributes: ValueStack::new(alloc),
        }
    }

    /// Does the action, on these parts.
    pub fn put(
        &mut self,
        alloc: Global,
        parts: &mut Parts,
        action: TableAction,
    ) -> Result<(), OutOfMemory>
        ensures { OnOk result ((b : Built) → put_table action (with_tables parts.old self.old b) ≡ with_tables parts.new self.new b) }
    {
        match action {
            TableAction::NoReads => self.reads.push(Rows::new(alloc)),
            TableAction::AddRead => self.add_read(alloc, parts),
            TableAction::NoAttrs => self.attributes.push(Rows::new(alloc)),
            TableAction::AddReads => {
                self.attributes
                    .extend(alloc, TableAttr::Reads(self.reads.pop_list(alloc)))
            }
            TableAction::AddActions => {
                self.attributes.extend(alloc, TableAttr::Actions(parts.name_lists.pop_list(alloc)))
            }
            TableAction::AddMinSize => {
                self.attributes
                    .extend(alloc, TableAttr::MinSize(parts.take_literal()))
            }
            TableAction::AddMaxSize => {
                self.attributes
                    .extend(alloc, TableAttr::MaxSize(parts.take_literal()))
            }
            TableAction::AddSize => self
                .attributes
                .extend(alloc, TableAttr::Size(parts.take_literal())),
            TableAction::AddTimeout(on) => self
                .attributes
                .extend(alloc, TableAttr::SupportTimeout(on)),
            TableAction::AddDefaultAction => {
                let name = parts.take_name(alloc);
                let arguments = parts.arguments.pop_or(None);
                self.attributes
                    .extend(alloc, TableAttr::DefaultAction(name, arguments))
            }
            TableAction::AddProfile => {
                self.attributes
                    .extend(alloc, TableAttr::ActionProfile(parts.take_name(alloc)))
            }
        }
    }

    /// Puts a line of `reads` into the newest list.
    fn add_read(&mut self, alloc: Global, parts: &mut Parts) -> Result<(), OutOfMemory>
        ensures parts { parts.new ≡ record parts.old { names = older parts.old.names; instances = older parts.old.instances; field_options = older parts.old.field_options; literal_options = older parts.old.literal_options } }
        ensures reads { OnOk result (self.new ≡ record self.old { reads = extended (record { key = key_of (last_instance parts.old) (newest None parts.old.field_options); mask = newest None parts.old.literal_options; kind = last_name parts.old } ∷ []) self.old.reads }) }
    {
        let instance = parts.take_instance(alloc);
        let field = parts.field_options.pop_or(None);
        let read = Read {
            key: key_of(instance, field),
            mask: parts.literal_options.pop_or(None),
            kind: parts.take_name(alloc),
        };
        self.reads.extend(alloc, read)
    }
}

/// The instance, or its field.
fn key_of(instance: Inst, field: Option<Text>) -> ReadKey
    ensures { result ≡ key_of instance field }
{
    match field {
        Some(field) => ReadKey::Field(Ref { instance, field }),
        None => ReadKey::Instance(instance),
    }
}
