// The calculations of a program by number.
ghost use Rattle.std.specs.Prelude.{◌≡◌, ◌++◌, map, filter_map, option_to_list, IfOk, OnOk};
ghost use Rattle.p414_syntax.specs.Expansion.{list_number};
ghost use Rattle.p414_syntax.specs.Lists.{calculation_in};
ghost use Rattle.p414_act_run.specs.Sums.{algorithm_of, calculations, kept_calculation};

use crate::calculations::{Algorithm, ReadyCalculation};
use name_numbers::narrow;
use p4x_bits::{OutOfMemory, Rows, Text};
use p414_list_check::list_number;
use p414_names::Names14;
use p414_slots::narrow_width;
use p414_syntax::{Decl, FieldListCalculation};
use std::alloc::Global;

const CSUM16: &[u8] = b"csum16";

const CRC16: &[u8] = b"crc16";

const CRC32: &[u8] = b"crc32";

/// The algorithm with a name; any other is `identity`.
fn algorithm_of(name: &[u8]) -> Algorithm
    ensures { result ≡ algorithm_of name.now }
{
    if name == CSUM16 {
        Algorithm::Csum16
    } else if name == CRC16 {
        Algorithm::Crc16
    } else if name == CRC32 {
        Algorithm::Crc32
    } else {
        Algorithm::Identity
    }
}

/// Puts the number of a field list last, if there is one of this name.
fn add_input(found: &mut Rows<u32>, names: &Names14<'_>, name: &[u8]) -> Result<(), OutOfMemory>
    ensures { OnOk result (found.new ≡ found.old ++ option_to_list (list_number names.now name.now)) }
{
    if let Some(number) = list_number(names, name) {
        found.push(narrow(number)?)?;
    }
    Ok(())
}

/// The numbers of the field lists with these names.
#[tactic(auto, using(crate::proofs::Loops::picked_now))]
fn inputs_of(alloc: Global, names: &Names14<'_>, inputs: &[Text]) -> Result<Rows<u32>, OutOfMemory>
    ensures { IfOk result (λ found. found ≡ filter_map (list_number names.now) inputs.now) }
{
    let mut found = Rows::new(alloc);
    for name in inputs {
        add_input(&mut found, names, name.as_slice())?;
    }
    Ok(found)
}

/// A calculation.
fn kept_calculation(
    alloc: Global,
    names: &Names14<'_>,
    declared: &FieldListCalculation,
) -> Result<ReadyCalculation, OutOfMemory>
    ensures { IfOk result (λ kept. kept ≡ kept_calculation names.now declared.now) }
{
    let inputs = inputs_of(alloc, names, declared.input.as_slice())?;
    let width = narrow_width(declared.output_width.value)?;
    Ok(ReadyCalculation {
        inputs,
        algorithm: algorithm_of(declared.algorithm.as_slice()),
        width,
    })
}

/// Puts a calculation last, if a declaration is one.
fn add_calculation(
    alloc: Global,
    found: &mut Rows<ReadyCalculation>,
    names: &Names14<'_>,
    decl: &Decl,
) -> Result<(), OutOfMemory>
    ensures { OnOk result (found.new ≡ found.old ++ map (kept_calculation names.now) (option_to_list (calculation_in decl.now))) }
{
    if let Decl::FieldListCalculation(declared) = decl {
        found.push(kept_calculation(alloc, names, declared)?)?;
    }
    Ok(())
}

/// The calculations of a program, in the order of declaration. The one error is want of memory, which a width over 255 counts
/// as.
#[tactic(auto, using(crate::proofs::Loops::kept_now))]
pub fn calculation_rows(
    alloc: Global,
    names: &Names14<'_>,
    decls: &[Decl],
) -> Result<Rows<ReadyCalculation>, OutOfMemory>
    ensures { IfOk result (λ rows. rows ≡ map (kept_calculation names.now) (calculations decls.now)) }
{
    let mut found = Rows::new(alloc);
    for decl in decls {
        add_calculation(alloc, &mut found, names, decl)?;
    }
    Ok(found)
}
