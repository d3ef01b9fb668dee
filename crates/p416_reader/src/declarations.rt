// Declarations, as they are put together.
ghost use Rattle.std.specs.Prelude.{◌≡◌, OnOk, IfOk};
ghost use Rattle.p416_reader.specs.declared.symbols.DeclAction.TheVariants as DeclAction;
ghost use Rattle.p416_reader.specs.internal.Built.{no_decls};
ghost use Rattle.p416_reader.specs.internal.Actions.{put_decl, with_decl};

use crate::built::Built;
use crate::symbols::DeclAction;
use p4x_bits::{OutOfMemory, Rows, Text};
use p416_syntax::{BitField, Control16, Decl16, Header16, Parser16, Struct16, StructField};
use predictive_parser::ValueStack;
use std::alloc::Global;

/// Stacks of fields, and the declarations and the names of the blocks in `main`.
pub struct Decls {
    pub bit_fields: ValueStack<Rows<BitField>>,
    pub struct_fields: ValueStack<Rows<StructField>>,
    pub decls: Rows<Decl16>,
    pub main: Rows<Text>,
}

impl Drop for Decls {
    fn drop(self) {
        let Decls {
            bit_fields: _bit_fields,
            struct_fields: _struct_fields,
            decls: _decls,
            main: _main,
        } = self;
    }
}

impl Decls {
    /// No parts.
    pub fn new(alloc: Global) -> Self
        ensures { result ≡ no_decls }
    {
        Decls {
            bit_fields: ValueStack::new(alloc),
            struct_fields: ValueStack::new(alloc),
            decls: Rows::new(alloc),
            main: Rows::new(alloc),
        }
    }
}

impl Built {
    /// Does an action on declarations.
    pub fn put_decl(&mut self, alloc: Global, action: DeclAction) -> Result<(), OutOfMemory>
        ensures { OnOk result (self.new ≡ put_decl action self.old) }
    {
        match action {
            DeclAction::NoBitFields => self.decls.bit_fields.push(Rows::new(alloc)),
            DeclAction::AddBitField => self.add_bit_field(alloc),
            DeclAction::NoFields => self.decls.struct_fields.push(Rows::new(alloc)),
            DeclAction::AddField => self.add_field(alloc),
            DeclAction::AddBlock => {
                let name = self.parts.take_name(alloc);
                self.decls.main.push(name)?;
                Ok(())
            }
            DeclAction::Header => {
                let decl = self.header(alloc);
                self.add_decl(alloc, decl)
            }
            DeclAction::Struct => {
                let decl = self.structure(alloc);
                self.add_decl(alloc, decl)
            }
            DeclAction::Object => {
                let decl = self.object(alloc);
                self.add_decl(alloc, decl)
            }
            DeclAction::Parser => {
                let decl = self.parser(alloc);
                self.add_decl(alloc, decl)
            }
            DeclAction::Control => {
                let decl = self.control(alloc)?;
                self.add_decl(alloc, decl)
            }
        }
    }

    /// Puts a declaration behind the others.
    fn add_decl(&mut self, alloc: Global, decl: Decl16) -> Result<(), OutOfMemory>
        ensures { OnOk result (self.new ≡ with_decl decl self.old) }
    {
        self.bodies.clear(alloc);
        self.decls.decls.push(decl)?;
        Ok(())
    }

    /// Puts a field of a header into the newest list.
    fn add_bit_field(&mut self, alloc: Global) -> Result<(), OutOfMemory>
        ensures { OnOk result (self.new ≡ put_decl DeclAction.AddBitField self.old) }
    {
        let name = self.parts.take_name(alloc);
        let width = self.parts.take_literal();
        self.decls
            .bit_fields
            .extend(alloc, BitField { width, name })
    }

    /// Puts a field of a struct into the newest list.
    fn add_field(&mut self, alloc: Global) -> Result<(), OutOfMemory>
        ensures { OnOk result (self.new ≡ put_decl DeclAction.AddField self.old) }
    {
        let name = self.parts.take_name(alloc);
        let of = self.parts.take_type();
        let notes = self.parts.take_notes(alloc);
        self.decls
            .struct_fields
            .extend(alloc, StructField { notes, of, name })
    }

    /// A header type of the newest parts.
    fn header(&mut self, alloc: Global) -> Decl16
        ensures { put_decl DeclAction.Header self.old ≡ with_decl result self.new }
    {
        let name = self.parts.take_name(alloc);
        let fields = self.decls.bit_fields.pop_list(alloc);
        Decl16::Header(Header16 { name, fields })
    }

    /// A struct type of the newest parts.
    fn structure(&mut self, alloc: Global) -> Decl16
        ensures { put_decl DeclAction.Struct self.old ≡ with_decl result self.new }
    {
        let name = self.parts.take_name(alloc);
        let fields = self.decls.struct_fields.pop_list(alloc);
        Decl16::Struct(Struct16 { name, fields })
    }

    /// A stateful object of the newest parts.
    fn object(&mut self, alloc: Global) -> Decl16
        ensures { put_decl DeclAction.Object self.old ≡ with_decl result self.new }
    {
        let notes = self.parts.take_notes(alloc);
        let instance = self.controls.take_instance(alloc);
        Decl16::Instance(notes, instance)
    }

    /// A parser of the newest parts.
    fn parser(&mut self, alloc: Global) -> Decl16
        ensures { put_decl DeclAction.Parser self.old ≡ with_decl result self.new }
    {
        let name = self.parts.take_name(alloc);
        let parameters = self.parts.params.pop_list(alloc);
        let vars = self.states.vars.pop_list(alloc);
        let states = self.states.states.pop_list(alloc);
        Decl16::Parser(Parser16 {
            name,
            parameters,
            vars,
            states,
        })
    }

    /// A control of the newest parts.
    fn control(&mut self, alloc: Global) -> Result<Decl16, OutOfMemory>
        ensures { IfOk result (λ decl. put_decl DeclAction.Control self.old ≡ with_decl decl self.new) }
    {
        let body = self.states.take_block(alloc)?;
        let name = self.parts.take_name(alloc);
        let parameters = self.parts.params.pop_list(alloc);
        let locals = self.controls.locals.pop_list(alloc);
        Ok(Decl16::Control(Control16 {
            name,
            parameters,
            locals,
            body,
        }))
    }
}
