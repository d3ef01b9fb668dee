// Declarations, as they are put together.
ghost use Rattle.std.specs.Prelude.{◌≡◌, OnOk, IfOk};
ghost use Rattle.p414_reader.specs.declared.symbols.DeclKind.TheVariants as DeclKind;
ghost use Rattle.p414_reader.specs.internal.Actions.{put_decl, with_decl, stateful_of, without_object};

use crate::built::Built;
use crate::symbols::DeclKind;
use p4x_bits::{OutOfMemory, Text};
use p414_syntax::{
    Action, CalculatedField, Decl, FieldList, FieldListCalculation, Header, LeftOut, LeftOutKind,
    Metadata, Parser, Return, Stateful, Table,
};
use std::alloc::Global;

impl Built {
    /// A declaration ends, and is put behind the others.
    pub fn add_decl(&mut self, alloc: Global, kind: DeclKind) -> Result<(), OutOfMemory>
        ensures { OnOk result (self.new ≡ put_decl kind self.old) }
    {
        let decl = self.declaration(alloc, kind)?;
        self.bodies.clear(alloc);
        self.decls.push(decl)
    }

    /// The declaration of the newest parts.
    fn declaration(&mut self, alloc: Global, kind: DeclKind) -> Result<Decl, OutOfMemory>
        ensures { IfOk result (λ decl. put_decl kind self.old ≡ with_decl decl self.new) }
    {
        match kind {
            DeclKind::HeaderType => Ok(self.header_type(alloc)),
            DeclKind::Header => Ok(self.header(alloc)),
            DeclKind::Metadata => Ok(self.metadata(alloc)),
            DeclKind::FieldList => Ok(self.field_list(alloc)),
            DeclKind::FieldListCalculation => Ok(self.field_list_calculation(alloc)),
            DeclKind::CalculatedField => Ok(self.calculated_field(alloc)),
            DeclKind::Parser => Ok(self.parser(alloc)),
            DeclKind::Action => Ok(self.action(alloc)),
            DeclKind::Table => Ok(self.table(alloc)),
            DeclKind::Counter => Ok(Decl::Counter(self.stateful(alloc))),
            DeclKind::Meter => Ok(Decl::Meter(self.stateful(alloc))),
            DeclKind::Register => Ok(Decl::Register(self.stateful(alloc))),
            DeclKind::Control => self.control(alloc),
            DeclKind::LeftOut(kind) => Ok(self.left_out(alloc, kind)),
        }
    }

    fn header_type(&mut self, alloc: Global) -> Decl
        ensures { put_decl DeclKind.HeaderType self.old ≡ with_decl result self.new }
    {
        let name = self.parts.take_name(alloc);
        let fields = self.headers.fields.pop_list(alloc);
        let forest = &mut self.bodies.forest;
        Decl::HeaderType(forest.take_header_type(alloc, name, fields))
    }

    fn header(&mut self, alloc: Global) -> Decl
        ensures { put_decl DeclKind.Header self.old ≡ with_decl result self.new }
    {
        let name = self.parts.take_name(alloc);
        let header_type = self.parts.take_name(alloc);
        let size = self.parts.literal_options.pop_or(None);
        Decl::Header(Header {
            header_type,
            name,
            size,
        })
    }

    fn metadata(&mut self, alloc: Global) -> Decl
        ensures { put_decl DeclKind.Metadata self.old ≡ with_decl result self.new }
    {
        let name = self.parts.take_name(alloc);
        let header_type = self.parts.take_name(alloc);
        let initials = self.headers.initials_options.pop_or(None);
        Decl::Metadata(Metadata {
            header_type,
            name,
            initials,
        })
    }

    fn field_list(&mut self, alloc: Global) -> Decl
        ensures { put_decl DeclKind.FieldList self.old ≡ with_decl result self.new }
    {
        let name = self.parts.take_name(alloc);
        let items = self.calculations.items.pop_list(alloc);
        Decl::FieldList(FieldList { name, items })
    }

    fn field_list_calculation(&mut self, alloc: Global) -> Decl
        ensures { put_decl DeclKind.FieldListCalculation self.old ≡ with_decl result self.new }
    {
        let algorithm = self.parts.take_name(alloc);
        let name = self.parts.take_name(alloc);
        let input = self.parts.name_lists.pop_list(alloc);
        let output_width = self.parts.take_literal();
        Decl::FieldListCalculation(FieldListCalculation {
            name,
            input,
            algorithm,
            output_width,
        })
    }

    fn calculated_field(&mut self, alloc: Global) -> Decl
        ensures { put_decl DeclKind.CalculatedField self.old ≡ with_decl result self.new }
    {
        let field = self.parts.take_field(alloc);
        let entries = self.calculations.entries.pop_list(alloc);
        Decl::CalculatedField(CalculatedField { field, entries })
    }

    fn parser(&mut self, alloc: Global) -> Decl
        ensures { put_decl DeclKind.Parser self.old ≡ with_decl result self.new }
    {
        let name = self.parts.take_name(alloc);
        let statements = self.states.statements.pop_list(alloc);
        let end = self.states.ends.pop_or(Return::State(Text::new(alloc)));
        Decl::Parser(Parser {
            name,
            statements,
            end,
        })
    }

    fn action(&mut self, alloc: Global) -> Decl
        ensures { put_decl DeclKind.Action self.old ≡ with_decl result self.new }
    {
        let name = self.parts.take_name(alloc);
        let parameters = self.parts.name_lists.pop_list(alloc);
        let calls = self.calls.calls.pop_list(alloc);
        Decl::Action(Action {
            name,
            parameters,
            calls,
        })
    }

    fn table(&mut self, alloc: Global) -> Decl
        ensures { put_decl DeclKind.Table self.old ≡ with_decl result self.new }
    {
        let name = self.parts.take_name(alloc);
        let attributes = self.tables.attributes.pop_list(alloc);
        Decl::Table(Table { name, attributes })
    }

    /// A counter, a meter or a register.
    fn stateful(&mut self, alloc: Global) -> Stateful
        ensures is { result ≡ stateful_of self.old }
        ensures rest { self.new ≡ without_object self.old }
    {
        let name = self.parts.take_name(alloc);
        let attributes = self.objects.pop_list(alloc);
        Stateful { name, attributes }
    }

    fn control(&mut self, alloc: Global) -> Result<Decl, OutOfMemory>
        ensures { IfOk result (λ decl. put_decl DeclKind.Control self.old ≡ with_decl decl self.new) }
    {
        let name = self.parts.take_name(alloc);
        let control = self.bodies.forest.take_control(alloc, name)?;
        Ok(Decl::Control(control))
    }

    fn left_out(&mut self, alloc: Global, kind: LeftOutKind) -> Decl
        ensures { put_decl (DeclKind.LeftOut kind) self.old ≡ with_decl result self.new }
    {
        let name = self.parts.take_name(alloc);
        let group = self.groups.pop_or(None);
        Decl::LeftOut(LeftOut { kind, name, group })
    }
}
