// From a P4_14 program of the one-table form to the P4_16 program that it becomes.
ghost use Rattle.std.specs.Prelude.{◌≡◌, IfOk};
ghost use Rattle.p4x_cmd.specs.internal.Lowering.{lowered, lowered_field};

use one_table_text::OneTable16;
use p4x_bits::{OutOfMemory, Rows, Text};
use p414_one_table::{Field, OneTable14};
use std::alloc::Global;

/// A field of the header, under its name in P4_16: no reserved word begins with `f_`.
fn lower_field(alloc: Global, field: &Field) -> Result<Field, OutOfMemory>
    ensures { IfOk result (λ f. f ≡ lowered_field field.now) }
{
    let mut name = Text::from_slice(alloc, b"f_")?;
    name.extend_from_slice(field.name.as_slice())?;
    Ok(Field {
        name,
        width: field.width,
    })
}

/// The P4_16 program that a P4_14 program becomes.
pub(crate) fn lower(alloc: Global, program: &OneTable14) -> Result<OneTable16, OutOfMemory>
    ensures { IfOk result (λ q. q ≡ lowered program.now) }
{
    let mut fields = Rows::new(alloc);
    for field in program.fields.as_slice() {
        fields.push(lower_field(alloc, field)?)?;
    }
    Ok(OneTable16 {
        fields,
        action: Text::from_slice(alloc, program.action.as_slice())?,
        port: program.port,
        table: Text::from_slice(alloc, program.table.as_slice())?,
    })
}
