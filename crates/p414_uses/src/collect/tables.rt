// The uses in tables, counters, meters and registers.
ghost use Rattle.std.specs.Prelude.{◌≡◌, [], ◌∷◌, ◌++◌, map, option_copied, option_to_list, OnOk, None, Some};
ghost use Rattle.std.specs.List.{flat_map};
ghost use Rattle.p414_syntax.specs.Subtrees.{subexpressions, subtrees};
ghost use Rattle.p414_uses.specs.internal.Collected.{Adds};
ghost use Rattle.p414_syntax.specs.Uses.{uses_of_key, uses_of_read, uses_of_table_attr, uses_of_state_attr, uses_of_meter};

use crate::collect::lists::add_names;
use crate::uses::{Use, add};
use p4x_bits::OutOfMemory;
use p414_syntax::{Read, ReadKey, Sort, StateAttr, Stateful, TableAttr};

/// Adds the use in a key.
fn add_read<'a>(found: &mut Vec<Use<'a>>, read: &'a Read) -> Result<(), OutOfMemory>
    ensures { OnOk result (Adds found.old.items found.new.items (uses_of_read read.now)) }
{
    match &read.key {
        ReadKey::Field(field) => add(found, Use::OfField(field)),
        ReadKey::Instance(instance) => add(found, Use::OfInstance(instance)),
    }
}

/// Adds the uses in keys.
fn add_reads<'a>(found: &mut Vec<Use<'a>>, reads: &'a [Read]) -> Result<(), OutOfMemory>
    ensures { OnOk result (Adds found.old.items found.new.items (flat_map uses_of_read reads.now)) }
{
    for read in reads {
        add_read(found, read)?;
    }
    Ok(())
}

/// Adds the uses in an attribute of a table.
fn add_table_attribute<'a>(
    found: &mut Vec<Use<'a>>,
    attribute: &'a TableAttr,
) -> Result<(), OutOfMemory>
    ensures { OnOk result (Adds found.old.items found.new.items (uses_of_table_attr attribute.now)) }
{
    match attribute {
        TableAttr::Reads(reads) => add_reads(found, reads.as_slice()),
        TableAttr::Actions(names) => add_names(found, Sort::Action, names.as_slice()),
        TableAttr::DefaultAction(name, _) => add(found, Use::OfAction(name)),
        _ => Ok(()),
    }
}

/// Adds the uses in a table.
pub fn add_table<'a>(
    found: &mut Vec<Use<'a>>,
    attributes: &'a [TableAttr],
) -> Result<(), OutOfMemory>
    ensures { OnOk result (Adds found.old.items found.new.items (flat_map uses_of_table_attr attributes.now)) }
{
    for attribute in attributes {
        add_table_attribute(found, attribute)?;
    }
    Ok(())
}

/// Adds the use in an attribute of a counter, a meter or a register, that behind `result` where it is judged.
fn add_object_attribute<'a>(
    found: &mut Vec<Use<'a>>,
    judged: bool,
    attribute: &'a StateAttr,
) -> Result<(), OutOfMemory>
    ensures { OnOk result (Adds found.old.items found.new.items (uses_of_state_attr judged attribute.now)) }
{
    match attribute {
        StateAttr::Direct(table) => add(found, Use::OfSort(Sort::Table, table)),
        StateAttr::Static(table) => add(found, Use::OfSort(Sort::Table, table)),
        StateAttr::Layout(name) => add(found, Use::OfSort(Sort::HeaderType, name)),
        StateAttr::Result(field) if judged => add(found, Use::OfField(field)),
        _ => Ok(()),
    }
}

/// Adds the uses in a counter, a meter or a register, that behind `result` where it is judged.
pub fn add_object<'a>(
    found: &mut Vec<Use<'a>>,
    judged: bool,
    attributes: &'a [StateAttr],
) -> Result<(), OutOfMemory>
    ensures { OnOk result (Adds found.old.items found.new.items (flat_map (uses_of_state_attr judged) attributes.now)) }
{
    for attribute in attributes {
        add_object_attribute(found, judged, attribute)?;
    }
    Ok(())
}

/// Adds the uses in a meter.
pub fn add_meter<'a>(found: &mut Vec<Use<'a>>, declared: &'a Stateful) -> Result<(), OutOfMemory>
    ensures { OnOk result (Adds found.old.items found.new.items (uses_of_meter declared.now.attributes)) }
{
    let judged = declared.direct_table().is_some();
    add_object(found, judged, declared.attributes.as_slice())
}
