// Stateful objects (`v1model.p4`).
ghost use Rattle.std.specs.Prelude.{◌≡◌, OnOk};
ghost use Rattle.p416_syntax.specs.Kinds.{bits};
ghost use Rattle.p416_syntax.specs.Calls.{literal_of};
ghost use Rattle.p416_syntax.specs.Types.{enumeration_of};
ghost use Rattle.p416_syntax.specs.Uses.{a_member, uses};
ghost use Rattle.p416_syntax.specs.Declarations.{instance_uses, object_uses};
ghost use Rattle.p416_names.specs.SeenKinds.{seen_enumeration};
ghost use Rattle.p416_scopes.specs.Seen.{seen_scope};
ghost use Rattle.p416_expression_check.specs.Judged.{first_broken};
ghost use Rattle.p416_expression_uses.specs.Found.{after, after_all};

use crate::notes::see_notes;
use crate::statements::see_at;
use p4x_bits::OutOfMemory;
use p416_calls::Place;
use p416_expression_uses::{Findings, see_width};
use p416_names::{Enumeration, Kind};
use p416_scopes::Scope;
use p416_syntax::{Exp, Instance, Member, Note, ProgramRule};
use std::alloc::Global;

/// The enumeration of a member.
fn enumeration_of(member: Member) -> Enumeration
    ensures { seen_enumeration result ≡ enumeration_of member }
{
    match member {
        Member::HashAlgorithm(_) => Enumeration::HashAlgorithm,
        Member::CounterType(_) => Enumeration::CounterType,
        Member::MeterType(_) => Enumeration::MeterType,
        Member::CloneType(_) => Enumeration::CloneType,
    }
}

/// The rule that a member of an enumeration breaks, where one of this is asked for.
fn broken_member(wanted: Enumeration, member: Member) -> Option<ProgramRule>
    ensures { result ≡ first_broken (a_member (seen_enumeration wanted) member) }
{
    if wanted.is_same(enumeration_of(member)) {
        None
    } else {
        Some(ProgramRule::T3)
    }
}

/// Judges a member of an enumeration, where one of this is asked for.
fn see_member(wanted: Enumeration, member: Member, found: &mut Findings<'_>)
    ensures { found.new ≡ after found.old (a_member (seen_enumeration wanted) member) }
{
    found.see_rule(broken_member(wanted, member));
}

/// Judges the size of an object.
fn see_size<'a>(
    alloc: Global,
    scope: &Scope<'_, 'a>,
    size: &'a Exp,
    found: &mut Findings<'a>,
) -> Result<(), OutOfMemory>
    ensures { OnOk result (found.new ≡ after_all found.old (uses (seen_scope scope.now) (literal_of (bits 32)) size.now)) }
{
    see_at(
        alloc,
        scope,
        Place::LiteralOf(Kind::Bits(32)),
        &size.view(),
        found,
    )
}

/// Judges an object.
fn see_instance<'a>(
    alloc: Global,
    scope: &Scope<'_, 'a>,
    instance: &'a Instance,
    found: &mut Findings<'a>,
) -> Result<(), OutOfMemory>
    ensures { OnOk result (found.new ≡ after_all found.old (instance_uses (seen_scope scope.now) instance.now)) }
{
    match instance {
        Instance::Counter(size, member, _) => {
            see_member(Enumeration::CounterType, *member, found);
            see_size(alloc, scope, size, found)
        }
        Instance::DirectCounter(member, _) => {
            see_member(Enumeration::CounterType, *member, found);
            Ok(())
        }
        Instance::Register(width, size, _) => {
            see_width(*width, found);
            see_size(alloc, scope, size, found)
        }
        Instance::Meter(size, member, _) => {
            see_member(Enumeration::MeterType, *member, found);
            see_size(alloc, scope, size, found)
        }
    }
}

/// Judges an object with its annotations.
#[tactic(auto, using(p416_expression_uses::proofs::Finding::after_then))]
pub(crate) fn see_object<'a>(
    alloc: Global,
    scope: &Scope<'_, 'a>,
    notes: &[Note],
    instance: &'a Instance,
    found: &mut Findings<'a>,
) -> Result<(), OutOfMemory>
    ensures { OnOk result (found.new ≡ after_all found.old (object_uses (seen_scope scope.now) notes.now instance.now)) }
{
    see_notes(notes, found);
    see_instance(alloc, scope, instance, found)?;
    Ok(())
}
