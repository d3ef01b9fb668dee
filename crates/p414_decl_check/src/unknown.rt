// C2: a name is used that its sort or type doesn't have.
ghost use Rattle.std.specs.Prelude.{◌≡◌, map, option_copied};
ghost use Rattle.std.specs.List.{list_any};
ghost use Rattle.p414_syntax.specs.Names.{is_state, is_control};
ghost use Rattle.p414_syntax.specs.Unknown.{parse_of, is_next_state, is_list_item, is_unknown, lacks_start, lacks_ingress, has_unknown_name};
ghost use Rattle.p414_uses.specs.Shown.{shown_use};
ghost use Rattle.p414_uses.specs.internal.Collected.{AreUses};
ghost use Rattle.p414_decl_check.specs.internal.Parts.{lacks_field};

use p414_names::{Names14, is_any_primitive};
use p414_syntax::{Decl, Inst, Sort};
use p414_uses::Use;

/// Whether a parser state has the name.
fn is_state(names: &Names14<'_>, name: &[u8]) -> bool
    ensures { result ≡ is_state (parse_of names.now name.now) }
{
    matches!(
        names.declaration_of(Sort::Parse, name),
        Some(Decl::Parser(_))
    )
}

/// Whether a control has the name.
fn is_control(names: &Names14<'_>, name: &[u8]) -> bool
    ensures { result ≡ is_control (parse_of names.now name.now) }
{
    matches!(
        names.declaration_of(Sort::Parse, name),
        Some(Decl::Control(_))
    )
}

/// Whether a transition may name it: a parser state, or the control `ingress`.
fn is_next_state(names: &Names14<'_>, name: &[u8]) -> bool
    ensures { result ≡ is_next_state names.now name.now }
{
    is_state(names, name) || name == b"ingress".as_slice() && is_control(names, name)
}

/// Whether an item names a field list.
fn is_list_item(names: &Names14<'_>, instance: &Inst) -> bool
    ensures { result ≡ is_list_item names.now instance.now }
{
    instance.index.is_none() && names.is_declared(Sort::List, instance.name.as_slice())
}

/// Whether what was extracted last lacks the field.
fn lacks_field(names: &Names14<'_>, last: Option<&Inst>, field: &[u8]) -> bool
    ensures { result ≡ lacks_field names.now (option_copied last.entry) field.now }
{
    match last {
        Some(instance) => names.width_of(instance.name.as_slice(), field).is_none(),
        None => false,
    }
}

/// Whether the name of a use isn't there.
fn is_unknown(names: &Names14<'_>, item: &Use<'_>) -> bool
    ensures { result ≡ is_unknown names.now (shown_use item.now) }
{
    match item {
        Use::OfSort(sort, name) => !names.is_declared(*sort, name.as_slice()),
        Use::OfAction(name) => {
            !(is_any_primitive(name.as_slice()) || names.is_declared(Sort::Action, name.as_slice()))
        }
        Use::OfNextState(name) => !is_next_state(names, name.as_slice()),
        Use::OfControl(name) => !is_control(names, name.as_slice()),
        Use::OfAnyInstance(name) => !names.is_instance(name.as_slice()),
        Use::OfInstance(instance) => !names.is_instance(instance.name.as_slice()),
        Use::OfExtracted(instance) => !names.is_instance(instance.name.as_slice()),
        Use::OfItem(instance) => {
            !(names.is_instance(instance.name.as_slice()) || is_list_item(names, instance))
        }
        Use::OfField(field) => names.ref_width(field).is_none(),
        Use::OfLatest(last, field) => lacks_field(names, *last, field.as_slice()),
        Use::OfTypeField(header_type, field) => names
            .width_in_type(header_type.as_slice(), field.as_slice())
            .is_none(),
    }
}

/// Whether the name of one of these uses isn't there.
fn some_unknown(names: &Names14<'_>, uses: &[Use<'_>]) -> bool
    ensures { result ≡ list_any (is_unknown names.now) (map shown_use uses.now) }
{
    for item in uses {
        if is_unknown(names, item) {
            return true;
        }
    }
    false
}

/// Whether C2 is broken, given all uses of the program.
pub fn has_unknown_name(names: &Names14<'_>, uses: &[Use<'_>]) -> bool
    requires { AreUses names.now uses.now }
    ensures { result ≡ has_unknown_name names.now }
{
    some_unknown(names, uses)
        || (!is_state(names, b"start".as_slice()) || !is_control(names, b"ingress".as_slice()))
}
