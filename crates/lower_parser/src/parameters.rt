// The parameters of the parser.
ghost use Rattle.std.specs.Prelude.{◌≡◌, Some, IfOk};
ghost use Rattle.p416_syntax.specs.declared.parts.Type16.TheVariants as type_of;
ghost use Rattle.lower_laws_program.specs.Program.{parameter, parser_parameters};

use p4x_bits::{OutOfMemory, Rows, Text};
use p416_syntax::{Direction, Param, Type16};
use std::alloc::Global;

/// A parameter of a named type.
fn parameter(
    alloc: Global,
    direction: Option<Direction>,
    of: &[u8],
    name: &[u8],
) -> Result<Param, OutOfMemory>
    ensures { IfOk result (λ made. made ≡ parameter direction of.now name.now) }
{
    let of = Text::from_slice(alloc, of)?;
    let name = Text::from_slice(alloc, name)?;
    Ok(Param {
        direction,
        of: Type16::Named(of, None),
        name,
    })
}

/// The packet, the headers, the metadata and the standard metadata.
pub fn parser_parameters(alloc: Global) -> Result<Rows<Param>, OutOfMemory>
    ensures { IfOk result (λ made. made ≡ parser_parameters) }
{
    let mut made = Rows::new(alloc);
    made.push(parameter(alloc, None, b"packet_in", b"packet")?)?;
    made.push(parameter(alloc, Some(Direction::Out), b"hs", b"hdr")?)?;
    made.push(parameter(alloc, Some(Direction::InOut), b"ms", b"meta")?)?;
    made.push(parameter(alloc, Some(Direction::InOut), b"standard_metadata_t", b"sm")?)?;
    Ok(made)
}
