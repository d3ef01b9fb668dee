// Counters, meters and registers, as they are put together.
ghost use Rattle.std.specs.Prelude.{◌≡◌, OnOk};
ghost use Rattle.p414_reader.specs.internal.Actions.{put_object, with_objects};
ghost use Rattle.p414_reader.specs.declared.built.Built.{Built};

use crate::parts::Parts;
use crate::symbols::ObjectAction;
use p4x_bits::{OutOfMemory, Rows};
use p414_syntax::StateAttr;
use predictive_parser::ValueStack;
use std::alloc::Global;

/// Does the action, on these parts.
pub fn put_object(
    alloc: Global,
    parts: &mut Parts,
    objects: &mut ValueStack<Rows<StateAttr>>,
    action: ObjectAction,
) -> Result<(), OutOfMemory>
    ensures { OnOk result ((b : Built) → put_object action (with_objects parts.old objects.old b) ≡ with_objects parts.new objects.new b) }
{
    match action {
        ObjectAction::NoAttrs => objects.push(Rows::new(alloc)),
        ObjectAction::AddCounts(what) => objects.extend(alloc, StateAttr::Counts(what)),
        ObjectAction::AddDirect => {
            objects.extend(alloc, StateAttr::Direct(parts.take_name(alloc)))
        }
        ObjectAction::AddStatic => {
            objects.extend(alloc, StateAttr::Static(parts.take_name(alloc)))
        }
        ObjectAction::AddLayout => {
            objects.extend(alloc, StateAttr::Layout(parts.take_name(alloc)))
        }
        ObjectAction::AddResult => {
            objects.extend(alloc, StateAttr::Result(parts.take_field(alloc)))
        }
        ObjectAction::AddInstanceCount => {
            objects.extend(alloc, StateAttr::InstanceCount(parts.take_literal()))
        }
        ObjectAction::AddWidth => objects.extend(alloc, StateAttr::Width(parts.take_literal())),
        ObjectAction::AddMinWidth => {
            objects.extend(alloc, StateAttr::MinWidth(parts.take_literal()))
        }
        ObjectAction::AddSaturating => objects.extend(alloc, StateAttr::Saturating),
        ObjectAction::AddSigned => objects.extend(alloc, StateAttr::Signed),
    }
}
