// Types in their places (P4_16 1.2, "Types", "Name resolution").
ghost use Rattle.std.specs.Prelude.{◌≡◌, List, map, option_to_list, OnOk};
ghost use Rattle.p416_syntax.specs.declared.parts.Type16.TheVariants.{Named};
ghost use Rattle.p416_syntax.specs.Names.{Name};
ghost use Rattle.p416_syntax.specs.Scopes.{Known};
ghost use Rattle.p416_syntax.specs.Types.{is_misplaced};
ghost use Rattle.p416_syntax.specs.Totals.{is_held, is_compound, if_held, held_kinds};
ghost use Rattle.p416_syntax.specs.Uses.{a_type, of_field, type_numbers, type_uses};
ghost use Rattle.p416_names.specs.SeenKinds.{seen_kind};
ghost use Rattle.p416_names.specs.Seen.{seen_sort};
ghost use Rattle.p416_scopes.specs.Seen.{seen_scope};
ghost use Rattle.p416_expression_check.specs.Judged.{first_broken};
ghost use Rattle.p416_expression_uses.specs.Found.{after, after_all};
ghost use Rattle.p416_expression_uses.specs.Seen.{seen_type_place};
ghost use Rattle.p416_expression_uses.specs.internal.Runs.{kind_rule, named_rule};

use crate::found::Findings;
use crate::numbers::{see_size, see_width};
use p4x_bits::OutOfMemory;
use p416_names::{Kind, Sort};
use p416_scopes::Scope;
use p416_syntax::{Literal16, ProgramRule, Type16};

/// What a type stands for.
#[derive(Clone, Copy, Drop)]
pub enum TypePlace {
    /// The type of a field of a struct.
    Field,
    /// The type of a variable.
    Variable,
    /// The type of a parameter of an action.
    ActionParameter,
    /// The type of a parameter of a parser or a control.
    BlockParameter,
    /// What `lookahead` reads.
    Lookahead,
}

/// Whether no type is known, or packets are.
fn is_no_value(kind: Kind<'_>) -> bool
    ensures { result ≡ is_misplaced of_field (seen_kind kind.entry) }
{
    matches!(kind, Kind::Unknown) || kind.is_packet()
}

/// Whether a place of types takes no type of this kind.
fn is_misplaced(place: TypePlace, kind: Kind<'_>) -> bool
    ensures { result ≡ is_misplaced (seen_type_place place) (seen_kind kind.entry) }
{
    match place {
        TypePlace::Field => is_no_value(kind),
        TypePlace::Variable => is_no_value(kind),
        TypePlace::ActionParameter => is_no_value(kind),
        TypePlace::BlockParameter => matches!(kind, Kind::Unknown),
        TypePlace::Lookahead => !kind.is_bits(),
    }
}

/// The rule that a type breaks whose values are of this kind.
fn broken_kind(place: TypePlace, kind: Kind<'_>) -> Option<ProgramRule>
    ensures { result ≡ kind_rule (seen_type_place place) (seen_kind kind.entry) }
{
    if is_misplaced(place, kind) {
        Some(ProgramRule::T3)
    } else {
        None
    }
}

/// The first rule that a type breaks whose name is declared as this, or a stack of so many of it.
fn broken_named(place: TypePlace, sort: Sort<'_>, size: Option<Literal16>) -> Option<ProgramRule>
    ensures { (top : List Known) → result ≡ named_rule (seen_type_place place) (seen_sort top sort.entry) size }
{
    match sort {
        Sort::Type(_) => broken_kind(place, sort.named_kind(size)),
        _ => Some(ProgramRule::T1),
    }
}

/// The first rule that a type breaks in its place, but for the numbers in it.
#[tactic(auto, using(crate::proofs::Finding::type_named))]
fn broken_place(scope: &Scope<'_, '_>, place: TypePlace, of: &Type16) -> Option<ProgramRule>
    ensures { result ≡ first_broken (a_type (seen_scope scope.now) (seen_type_place place) of.now) }
{
    match of {
        Type16::Bit(width) => broken_kind(place, Kind::Bits(width.value)),
        Type16::Bool => broken_kind(place, Kind::Boolean),
        Type16::Named(name, size) => broken_named(place, scope.sort_of(name.as_slice()), *size),
    }
}

/// Whether values of a type in this place are held in a block.
fn is_held(place: TypePlace) -> bool
    ensures { result ≡ is_held (seen_type_place place) }
{
    matches!(place, TypePlace::Variable | TypePlace::ActionParameter)
}

/// This kind, where it is that of headers, stacks or structs.
fn if_compound(kind: Kind<'_>) -> Option<Kind<'_>>
    ensures { map seen_kind (option_to_list result) ≡ if_held (is_compound (seen_kind kind.entry)) (seen_kind kind.entry) }
{
    match kind {
        Kind::Header(_) => Some(kind),
        Kind::Stack(_, _) => Some(kind),
        Kind::Struct(_) => Some(kind),
        _ => None,
    }
}

/// What is held of a type in its place, where it is headers, stacks or structs.
fn held_kind<'a>(scope: &Scope<'_, 'a>, place: TypePlace, of: &Type16) -> Option<Kind<'a>>
    ensures { map seen_kind (option_to_list result) ≡ held_kinds (a_type (seen_scope scope.now) (seen_type_place place) of.now) }
{
    if is_held(place) {
        if_compound(scope.kind_of_type(of))
    } else {
        None
    }
}

/// Judges a type in its place, but for the numbers in it.
#[tactic(auto, using(crate::proofs::Finding::type_seen))]
fn see_named<'a>(
    scope: &Scope<'_, 'a>,
    place: TypePlace,
    of: &Type16,
    found: &mut Findings<'a>,
) -> Result<(), OutOfMemory>
    ensures { OnOk result (found.new ≡ after found.old (a_type (seen_scope scope.now) (seen_type_place place) of.now)) }
{
    found.note(broken_place(scope, place, of));
    found.push_held(held_kind(scope, place, of))?;
    Ok(())
}

/// Judges the size of a stack, where there is one.
fn see_stack(size: Option<Literal16>, found: &mut Findings<'_>)
    ensures { (text : Name) → found.new ≡ after_all found.old (type_numbers (Named text size)) }
{
    match size {
        Some(size) => see_size(size, found),
        None => {}
    }
}

/// Judges the numbers in a type.
fn see_numbers(of: &Type16, found: &mut Findings<'_>)
    ensures { found.new ≡ after_all found.old (type_numbers of.now) }
{
    match of {
        Type16::Bit(width) => see_width(*width, found),
        Type16::Bool => {}
        Type16::Named(_, size) => see_stack(*size, found),
    }
}

/// Judges a type in its place, with the numbers in it. The one error is want of memory.
pub fn see_type<'a>(
    scope: &Scope<'_, 'a>,
    place: TypePlace,
    of: &Type16,
    found: &mut Findings<'a>,
) -> Result<(), OutOfMemory>
    ensures { OnOk result (found.new ≡ after_all found.old (type_uses (seen_scope scope.now) (seen_type_place place) of.now)) }
{
    see_named(scope, place, of, found)?;
    see_numbers(of, found);
    Ok(())
}
