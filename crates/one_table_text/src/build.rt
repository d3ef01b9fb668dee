// The syntax of a program of the form.
ghost use Rattle.std.specs.Prelude.{◌≡◌, IfOk};
ghost use Rattle.one_table_text.specs.Programs as programs;

use crate::one_table::OneTable16;
use crate::parts::{
    checksum_control, deparser, egress, header, header_struct, ingress, metadata_struct, parser,
};
use p4x_bits::{OutOfMemory, Rows, Text};
use p414_one_table::Field;
use p416_syntax::{Decl16, Syntax16};
use std::alloc::Global;

/// The declarations in front of the ingress control.
fn front(alloc: Global, fields: &[Field]) -> Result<Rows<Decl16>, OutOfMemory>
    ensures { IfOk result (λ ds. ds ≡ programs.front_decls fields.now) }
{
    let mut decls = Rows::new(alloc);
    decls.push(header(alloc, fields)?)?;
    decls.push(header_struct(alloc)?)?;
    decls.push(metadata_struct(alloc)?)?;
    decls.push(parser(alloc)?)?;
    decls.push(checksum_control(alloc, b"V")?)?;
    Ok(decls)
}

/// All declarations in order.
fn decls(alloc: Global, program: &OneTable16) -> Result<Rows<Decl16>, OutOfMemory>
    ensures { IfOk result (λ ds. ds ≡ programs.decls16 program.now) }
{
    let mut decls = front(alloc, program.fields.as_slice())?;
    decls.push(ingress(alloc, program)?)?;
    decls.push(egress(alloc, b"E")?)?;
    decls.push(checksum_control(alloc, b"C")?)?;
    decls.push(deparser(alloc)?)?;
    Ok(decls)
}

/// The names of the blocks in the order of the switch.
fn block_names(alloc: Global) -> Result<Rows<Text>, OutOfMemory>
    ensures { IfOk result (λ names. names ≡ programs.block_names) }
{
    let mut names = Rows::new(alloc);
    names.push(Text::from_slice(alloc, b"P")?)?;
    names.push(Text::from_slice(alloc, b"V")?)?;
    names.push(Text::from_slice(alloc, b"I")?)?;
    names.push(Text::from_slice(alloc, b"E")?)?;
    names.push(Text::from_slice(alloc, b"C")?)?;
    names.push(Text::from_slice(alloc, b"D")?)?;
    Ok(names)
}

/// The syntax of a program. It takes time and memory in proportion to the number of its fields.
///
/// # Errors
/// It fails for want of memory alone.
#[tactic(auto, unfolding(crate::specs::Programs::program16))]
pub fn syntax_of(alloc: Global, program: &OneTable16) -> Result<Syntax16, OutOfMemory>
    ensures { IfOk result (λ s. s ≡ programs.program16 program.now) }
{
    Ok(Syntax16 {
        decls: decls(alloc, program)?,
        main: block_names(alloc)?,
    })
}
