// The declarations of the form.
ghost use Rattle.std.specs.Prelude.{◌≡◌, [], ◌∷◌, map, IfOk};
ghost use Rattle.p416_syntax.specs.Tree.{no_arguments};
ghost use Rattle.p416_syntax.specs.declared.parts.Note.TheVariants as note;
ghost use Rattle.one_table_text.specs.Programs as programs;

use crate::bodies::{apply_or_drop, empty_body, header_body, port_body};
use crate::one_table::OneTable16;
use p4x_bits::{OutOfMemory, Rows, Text};
use p414_one_table::Field;
use p416_syntax::{
    Action16, ActionName, BitField, Block16, Control16, Decl16, Direction, Exp, ExpNode, Header16,
    Literal16, Local, Nodes, Note, Param, Parser16, Property, State, Struct16, StructField,
    Table16, Target, Transition, Type16,
};
use std::alloc::Global;

/// A field of the header: `bit<WIDTH> NAME;`.
fn bit_field(alloc: Global, field: &Field) -> Result<BitField, OutOfMemory>
    ensures { IfOk result (λ f. f ≡ programs.bit_field field.now) }
{
    Ok(BitField {
        width: Literal16 {
            width: None,
            value: u128::from(field.width),
        },
        name: Text::from_slice(alloc, field.name.as_slice())?,
    })
}

/// The header type, with its fields in order.
pub(crate) fn header(alloc: Global, given: &[Field]) -> Result<Decl16, OutOfMemory>
    ensures { IfOk result (λ d. d ≡ programs.header16 given.now) }
{
    let mut fields = Rows::new(alloc);
    for field in given {
        fields.push(bit_field(alloc, field)?)?;
    }
    Ok(Decl16::Header(Header16 {
        name: Text::from_slice(alloc, b"h_t")?,
        fields,
    }))
}

/// The struct of the one header.
pub(crate) fn header_struct(alloc: Global) -> Result<Decl16, OutOfMemory>
    ensures { IfOk result (λ d. d ≡ programs.header_struct) }
{
    let mut fields = Rows::new(alloc);
    fields.push(StructField {
        notes: Rows::new(alloc),
        of: Type16::Named(Text::from_slice(alloc, b"h_t")?, None),
        name: Text::from_slice(alloc, b"h")?,
    })?;
    Ok(Decl16::Struct(Struct16 {
        name: Text::from_slice(alloc, b"hs")?,
        fields,
    }))
}

/// The struct without fields.
pub(crate) fn metadata_struct(alloc: Global) -> Result<Decl16, OutOfMemory>
    ensures { IfOk result (λ d. d ≡ programs.metadata_struct) }
{
    Ok(Decl16::Struct(Struct16 {
        name: Text::from_slice(alloc, b"ms")?,
        fields: Rows::new(alloc),
    }))
}

/// A parameter.
fn param(
    alloc: Global,
    way: Option<Direction>,
    of: &[u8],
    name: &[u8],
) -> Result<Param, OutOfMemory>
    ensures { IfOk result (λ p. p ≡ programs.param way of.now name.now) }
{
    Ok(Param {
        direction: way,
        of: Type16::Named(Text::from_slice(alloc, of)?, None),
        name: Text::from_slice(alloc, name)?,
    })
}

/// The parameter that holds the headers.
fn headers_param(alloc: Global, way: Direction) -> Result<Param, OutOfMemory>
    ensures { IfOk result (λ p. p ≡ programs.headers_param way) }
{
    param(alloc, Some(way), b"hs", b"hdr")
}

/// The parameters of the checksum controls.
fn checksum_params(alloc: Global) -> Result<Rows<Param>, OutOfMemory>
    ensures { IfOk result (λ ps. ps ≡ programs.checksum_params) }
{
    let mut parameters = Rows::new(alloc);
    parameters.push(headers_param(alloc, Direction::InOut)?)?;
    parameters.push(param(alloc, Some(Direction::InOut), b"ms", b"meta")?)?;
    Ok(parameters)
}

/// The parameters of ingress and egress.
fn switch_params(alloc: Global) -> Result<Rows<Param>, OutOfMemory>
    ensures { IfOk result (λ ps. ps ≡ programs.switch_params) }
{
    let mut parameters = checksum_params(alloc)?;
    parameters.push(param(alloc, Some(Direction::InOut), b"standard_metadata_t", b"sm")?)?;
    Ok(parameters)
}

/// The parameters of the parser.
fn parser_params(alloc: Global) -> Result<Rows<Param>, OutOfMemory>
    ensures { IfOk result (λ ps. ps ≡ programs.parser_params) }
{
    let mut parameters = Rows::new(alloc);
    parameters.push(param(alloc, None, b"packet_in", b"p")?)?;
    parameters.push(headers_param(alloc, Direction::Out)?)?;
    parameters.push(param(alloc, Some(Direction::InOut), b"ms", b"meta")?)?;
    parameters.push(param(alloc, Some(Direction::InOut), b"standard_metadata_t", b"sm")?)?;
    Ok(parameters)
}

/// The parameters of the deparser.
fn deparser_params(alloc: Global) -> Result<Rows<Param>, OutOfMemory>
    ensures { IfOk result (λ ps. ps ≡ programs.deparser_params) }
{
    let mut parameters = Rows::new(alloc);
    parameters.push(param(alloc, None, b"packet_out", b"p")?)?;
    parameters.push(headers_param(alloc, Direction::In)?)?;
    Ok(parameters)
}

/// The state that extracts the header.
fn start_state(alloc: Global) -> Result<State, OutOfMemory>
    ensures { IfOk result (λ s. s ≡ programs.start_state) }
{
    Ok(State {
        name: Text::from_slice(alloc, b"start")?,
        body: header_body(alloc, b"extract")?,
        transition: Transition::Go(Target::Accept),
    })
}

/// The parser.
pub(crate) fn parser(alloc: Global) -> Result<Decl16, OutOfMemory>
    ensures { IfOk result (λ d. d ≡ programs.parser16) }
{
    let mut states = Rows::new(alloc);
    states.push(start_state(alloc)?)?;
    Ok(Decl16::Parser(Parser16 {
        name: Text::from_slice(alloc, b"P")?,
        parameters: parser_params(alloc)?,
        vars: Rows::new(alloc),
        states,
    }))
}

/// A control of this name.
fn control(
    alloc: Global,
    name: &[u8],
    parameters: Rows<Param>,
    locals: Rows<Local>,
    body: Block16,
) -> Result<Decl16, OutOfMemory>
    ensures { IfOk result (λ d. d ≡ programs.control16 name.now parameters locals body) }
{
    Ok(Decl16::Control(Control16 {
        name: Text::from_slice(alloc, name)?,
        parameters,
        locals,
        body,
    }))
}

/// A checksum control, which does nothing.
pub(crate) fn checksum_control(alloc: Global, name: &[u8]) -> Result<Decl16, OutOfMemory>
    ensures { IfOk result (λ d. d ≡ programs.empty_control name.now programs.checksum_params) }
{
    let parameters = checksum_params(alloc)?;
    let body = empty_body(alloc)?;
    control(alloc, name, parameters, Rows::new(alloc), body)
}

/// The egress control, which does nothing.
pub(crate) fn egress(alloc: Global, name: &[u8]) -> Result<Decl16, OutOfMemory>
    ensures { IfOk result (λ d. d ≡ programs.empty_control name.now programs.switch_params) }
{
    let parameters = switch_params(alloc)?;
    let body = empty_body(alloc)?;
    control(alloc, name, parameters, Rows::new(alloc), body)
}

/// The deparser.
pub(crate) fn deparser(alloc: Global) -> Result<Decl16, OutOfMemory>
    ensures { IfOk result (λ d. d ≡ programs.deparser16) }
{
    let parameters = deparser_params(alloc)?;
    let body = header_body(alloc, b"emit")?;
    control(alloc, b"D", parameters, Rows::new(alloc), body)
}

/// `@name("NAME")`, by itself.
fn name_note(alloc: Global, name: &[u8]) -> Result<Rows<Note>, OutOfMemory>
    ensures { IfOk result (λ notes. notes ≡ note.Name name.now ∷ []) }
{
    let mut notes = Rows::new(alloc);
    notes.push(Note::Name(Text::from_slice(alloc, name)?))?;
    Ok(notes)
}

/// The action, which sends to the port.
fn action(alloc: Global, name: &[u8], port: u64) -> Result<Local, OutOfMemory>
    ensures { IfOk result (λ a. a ≡ programs.action16 name.now port) }
{
    Ok(Local::Action(Action16 {
        notes: name_note(alloc, name)?,
        name: Text::from_slice(alloc, b"a")?,
        parameters: Rows::new(alloc),
        body: port_body(alloc, port)?,
    }))
}

/// The action's name, as the table has it.
fn action_name(alloc: Global) -> Result<ActionName, OutOfMemory>
    ensures { IfOk result (λ a. a ≡ programs.the_action) }
{
    Ok(ActionName::Declared(Text::from_slice(alloc, b"a")?))
}

/// No arguments.
fn no_arguments(alloc: Global) -> Result<Exp, OutOfMemory>
    ensures { IfOk result (λ given. given ≡ no_arguments) }
{
    let mut nodes = Nodes::new(alloc);
    let place = nodes.expression(ExpNode::NoArguments)?;
    Ok(Exp::new(nodes, place))
}

/// The table.
fn table(alloc: Global, name: &[u8]) -> Result<Local, OutOfMemory>
    ensures { IfOk result (λ t. t ≡ programs.table16 name.now) }
{
    let mut names = Rows::new(alloc);
    names.push(action_name(alloc)?)?;
    let mut properties = Rows::new(alloc);
    properties.push(Property::Actions(names))?;
    properties.push(Property::DefaultAction(action_name(alloc)?, no_arguments(alloc)?))?;
    Ok(Local::Table(Table16 {
        notes: name_note(alloc, name)?,
        name: Text::from_slice(alloc, b"t")?,
        properties,
    }))
}

/// The ingress control.
pub(crate) fn ingress(alloc: Global, program: &OneTable16) -> Result<Decl16, OutOfMemory>
    ensures { IfOk result (λ d. d ≡ programs.ingress16 program.now) }
{
    let parameters = switch_params(alloc)?;
    let mut locals = Rows::new(alloc);
    locals.push(action(alloc, program.action.as_slice(), program.port)?)?;
    locals.push(table(alloc, program.table.as_slice())?)?;
    let body = apply_or_drop(alloc)?;
    control(alloc, b"I", parameters, locals, body)
}
