// C4: sizes of header stacks, and indices.
ghost use Rattle.std.specs.Prelude.{◌≡◌, map};
ghost use Rattle.std.specs.List.{list_any};
ghost use Rattle.p414_syntax.specs.Stacks.{is_bad_size, declares_bad_size, is_bad_index, is_bad_extract, is_bad_instance, is_bad_extracted, is_misplaced, has_bad_stack};
ghost use Rattle.p414_uses.specs.Shown.{shown_use};
ghost use Rattle.p414_uses.specs.internal.Collected.{AreUses};

use p414_names::{Names14, size_in};
use p414_syntax::{Decl, Index, Inst, Literal};
use p414_uses::Use;

/// Whether a size of a stack is outside 1 to 256.
fn is_bad_size(size: Literal) -> bool
    ensures { result ≡ is_bad_size size }
{
    size.value < 1 || size.value > 256
}

/// Whether a declaration has a bad size of a stack.
fn declares_bad_size(decl: &Decl) -> bool
    ensures { result ≡ declares_bad_size decl.now }
{
    match size_in(decl) {
        Some(size) => is_bad_size(size),
        None => false,
    }
}

/// Whether some size of a stack is bad.
fn some_bad_size(decls: &[Decl]) -> bool
    ensures { result ≡ list_any declares_bad_size decls.now }
{
    for decl in decls {
        if declares_bad_size(decl) {
            return true;
        }
    }
    false
}

/// Whether an index names no one instance, where a stack has this size, if it is a stack.
fn is_bad_index(size: Option<Literal>, index: Option<Index>) -> bool
    ensures { result ≡ is_bad_index size index }
{
    match (size, index) {
        (None, None) => false,
        (None, Some(_)) => true,
        (Some(_), None) => true,
        (Some(size), Some(Index::At(place))) => size.value <= place.value,
        (Some(_), Some(Index::Next)) => true,
        (Some(_), Some(Index::Last)) => false,
    }
}

/// The same where something is extracted.
fn is_bad_extract(size: Option<Literal>, index: Option<Index>) -> bool
    ensures { result ≡ is_bad_extract size index }
{
    match (size, index) {
        (Some(_), Some(Index::Next)) => false,
        _ => is_bad_index(size, index),
    }
}

/// Whether no one instance is named.
fn is_bad_instance(names: &Names14<'_>, instance: &Inst) -> bool
    ensures { result ≡ is_bad_instance names.now instance.now }
{
    let name = instance.name.as_slice();
    names.is_instance(name) && is_bad_index(names.stack_size(name), instance.index)
}

/// The same where something is extracted.
fn is_bad_extracted(names: &Names14<'_>, instance: &Inst) -> bool
    ensures { result ≡ is_bad_extracted names.now instance.now }
{
    let name = instance.name.as_slice();
    names.is_instance(name) && is_bad_extract(names.stack_size(name), instance.index)
}

/// Whether a use names no one instance, where one is wanted.
fn is_misplaced(names: &Names14<'_>, item: &Use<'_>) -> bool
    ensures { result ≡ is_misplaced names.now (shown_use item.now) }
{
    match item {
        Use::OfInstance(instance) => is_bad_instance(names, instance),
        Use::OfExtracted(instance) => is_bad_extracted(names, instance),
        Use::OfItem(instance) => is_bad_instance(names, instance),
        Use::OfField(field) => is_bad_instance(names, &field.instance),
        _ => false,
    }
}

/// Whether one of these uses names no one instance, where one is wanted.
fn some_misplaced(names: &Names14<'_>, uses: &[Use<'_>]) -> bool
    ensures { result ≡ list_any (is_misplaced names.now) (map shown_use uses.now) }
{
    for item in uses {
        if is_misplaced(names, item) {
            return true;
        }
    }
    false
}

/// Whether C4 is broken, given all uses of the program.
pub fn has_bad_stack(names: &Names14<'_>, uses: &[Use<'_>]) -> bool
    requires { AreUses names.now uses.now }
    ensures { result ≡ has_bad_stack names.now }
{
    some_bad_size(names.decls()) || some_misplaced(names, uses)
}
