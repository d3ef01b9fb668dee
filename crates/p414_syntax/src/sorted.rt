// The declarations of a program, sort by sort.
ghost use Rattle.std.specs.Prelude.{◌≡◌, IfOk, OnOk};
ghost use Rattle.p414_syntax.specs.Sorted.{nothing, put_decl, sorted};

use crate::actions::Action;
use crate::calculations::{CalculatedField, FieldList, FieldListCalculation};
use crate::control::Control;
use crate::headers::{Header, HeaderType, Metadata};
use crate::objects::Stateful;
use crate::parsers::Parser;
use crate::references::References;
use crate::syntax::{Decl, LeftOut, Syntax14};
use crate::tables::Table;
use p4x_bits::OutOfMemory;
use std::alloc::Global;

/// The declarations of a syntax, borrowed: those of each sort in the order of the text.
pub struct Sorted<'a> {
    /// The header types.
    pub header_types: References<'a, HeaderType>,
    /// The header instances and header stacks.
    pub headers: References<'a, Header>,
    /// The metadata instances.
    pub metadata: References<'a, Metadata>,
    /// The field lists.
    pub field_lists: References<'a, FieldList>,
    /// The calculations over field lists.
    pub calculations: References<'a, FieldListCalculation>,
    /// The calculated fields.
    pub calculated_fields: References<'a, CalculatedField>,
    /// The parser states.
    pub parser_states: References<'a, Parser>,
    /// The actions.
    pub actions: References<'a, Action>,
    /// The tables.
    pub tables: References<'a, Table>,
    /// The counters.
    pub counters: References<'a, Stateful>,
    /// The meters.
    pub meters: References<'a, Stateful>,
    /// The registers.
    pub registers: References<'a, Stateful>,
    /// The controls.
    pub controls: References<'a, Control>,
    /// The declarations that are left out.
    pub left_out: References<'a, LeftOut>,
}

impl Drop for Sorted<'_> {
    fn drop(self) {
        let Sorted {
            header_types: _header_types,
            headers: _headers,
            metadata: _metadata,
            field_lists: _field_lists,
            calculations: _calculations,
            calculated_fields: _calculated_fields,
            parser_states: _parser_states,
            actions: _actions,
            tables: _tables,
            counters: _counters,
            meters: _meters,
            registers: _registers,
            controls: _controls,
            left_out: _left_out,
        } = self;
    }
}

impl<'a> Sorted<'a> {
    /// No declarations. It takes no memory.
    fn new(alloc: Global) -> Self
        ensures { result ≡ nothing }
    {
        Sorted {
            header_types: References::new(alloc),
            headers: References::new(alloc),
            metadata: References::new(alloc),
            field_lists: References::new(alloc),
            calculations: References::new(alloc),
            calculated_fields: References::new(alloc),
            parser_states: References::new(alloc),
            actions: References::new(alloc),
            tables: References::new(alloc),
            counters: References::new(alloc),
            meters: References::new(alloc),
            registers: References::new(alloc),
            controls: References::new(alloc),
            left_out: References::new(alloc),
        }
    }

    /// Puts one more declaration behind those of its sort.
    fn put(&mut self, decl: &'a Decl) -> Result<(), OutOfMemory>
        ensures { OnOk result (self.new ≡ put_decl self.old decl.now) }
    {
        match decl {
            Decl::HeaderType(declared) => self.header_types.push(declared),
            Decl::Header(declared) => self.headers.push(declared),
            Decl::Metadata(declared) => self.metadata.push(declared),
            Decl::FieldList(declared) => self.field_lists.push(declared),
            Decl::FieldListCalculation(declared) => self.calculations.push(declared),
            Decl::CalculatedField(declared) => self.calculated_fields.push(declared),
            Decl::Parser(declared) => self.parser_states.push(declared),
            Decl::Action(declared) => self.actions.push(declared),
            Decl::Table(declared) => self.tables.push(declared),
            Decl::Counter(declared) => self.counters.push(declared),
            Decl::Meter(declared) => self.meters.push(declared),
            Decl::Register(declared) => self.registers.push(declared),
            Decl::Control(declared) => self.controls.push(declared),
            Decl::LeftOut(declared) => self.left_out.push(declared),
        }
    }
}

/// The declarations of a syntax, sort by sort, each sort in the order of the text, or want of memory. Its time and its
/// memory are proportional to the number of declarations.
pub fn sort_declarations(alloc: Global, syntax: &Syntax14) -> Result<Sorted<'_>, OutOfMemory>
    ensures { IfOk result (λ found. found ≡ sorted syntax.now.decls) }
{
    let mut all = Sorted::new(alloc);
    for decl in syntax.decls.as_slice() {
        all.put(decl)?;
    }
    Ok(all)
}
