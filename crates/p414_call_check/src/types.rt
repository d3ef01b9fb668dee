// C13: the types of the headers that are copied.
ghost use Rattle.std.specs.Prelude.{◌≡◌, map, flat_map, option_copied, option_to_list};
ghost use Rattle.p414_syntax.specs.Calls.{type_names, differ};
ghost use Rattle.p414_syntax.specs.Fields.{type_name_in};
ghost use Rattle.p414_calls.specs.Shown.{shown_argument};
ghost use Rattle.p414_call_check.specs.internal.Types.{first_of, differ_from, differ_from_first};

use p4x_bits::Text;
use p414_calls::Argument;
use p414_names::Names14;
use p414_syntax::{Decl, Sort};

/// The name of the type of an instance.
fn type_name_in(decl: &Decl) -> Option<&Text>
    ensures { option_copied result ≡ type_name_in decl.now }
{
    match decl {
        Decl::Header(declared) => Some(&declared.header_type),
        Decl::Metadata(declared) => Some(&declared.header_type),
        _ => None,
    }
}

/// The name of the type of the instance that an argument stands for, if it is one.
fn type_name<'a>(names: &Names14<'a>, argument: Argument<'_>) -> Option<&'a Text>
    ensures { option_to_list (option_copied result) ≡ type_names names.now (shown_argument argument.entry) }
{
    match argument {
        Argument::Named(instance) => {
            match names.declaration_of(Sort::Instance, instance.name.as_slice()) {
                Some(decl) => type_name_in(decl),
                None => None,
            }
        }
        _ => None,
    }
}

/// Whether an argument is an instance of another type than the one with this name.
fn has_other_type(names: &Names14<'_>, name: &[u8], argument: Argument<'_>) -> bool
    ensures { result ≡ differ_from (type_names names.now (shown_argument argument.entry)) name.now }
{
    match type_name(names, argument) {
        Some(other) => name != other.as_slice(),
        None => false,
    }
}

/// Whether that is so of one of these arguments.
fn some_other_type(names: &Names14<'_>, name: &[u8], arguments: &[Argument<'_>]) -> bool
    ensures { result ≡ differ_from (flat_map (type_names names.now) (map shown_argument arguments.now)) name.now }
{
    for argument in arguments {
        if has_other_type(names, name, *argument) {
            return true;
        }
    }
    false
}

/// The name of the first type of these arguments.
fn first_type<'a>(names: &Names14<'a>, arguments: &[Argument<'_>]) -> Option<&'a Text>
    ensures { option_copied result ≡ first_of (flat_map (type_names names.now) (map shown_argument arguments.now)) }
{
    for argument in arguments {
        if let Some(name) = type_name(names, *argument) {
            return Some(name);
        }
    }
    None
}

/// Whether one of these arguments is an instance of another type than the first that is one.
fn differ_from_first(names: &Names14<'_>, arguments: &[Argument<'_>]) -> bool
    ensures { result ≡ differ_from_first (flat_map (type_names names.now) (map shown_argument arguments.now)) }
{
    match first_type(names, arguments) {
        Some(name) => some_other_type(names, name.as_slice(), arguments),
        None => false,
    }
}

/// Whether two of these arguments are instances of different types.
#[tactic(auto, using(crate::proofs::Copying::first_enough))]
pub fn have_other_types(names: &Names14<'_>, arguments: &[Argument<'_>]) -> bool
    ensures { result ≡ differ (flat_map (type_names names.now) (map shown_argument arguments.now)) }
{
    differ_from_first(names, arguments)
}
