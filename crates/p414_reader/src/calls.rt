// Actions, as they are put together.
ghost use Rattle.std.specs.Prelude.{◌≡◌, OnOk};
ghost use Rattle.p414_reader.specs.declared.built.Built.{Built};
ghost use Rattle.p414_reader.specs.internal.Built.{no_calls};
ghost use Rattle.p414_reader.specs.internal.Actions.{put_call, arg_of, with_calls};

use crate::parts::Parts;
use crate::symbols::CallAction;
use p4x_bits::{OutOfMemory, Rows, Text};
use p414_syntax::{Arg, Call, Inst, Ref};
use predictive_parser::ValueStack;
use std::alloc::Global;

/// Stacks of the parts of actions.
pub struct Calls {
    pub arguments: ValueStack<Rows<Arg>>,
    pub calls: ValueStack<Rows<Call>>,
}

impl Drop for Calls {
    fn drop(self) {
        let Calls {
            arguments: _arguments,
            calls: _calls,
        } = self;
    }
}

impl Calls {
    /// No parts.
    pub fn new(alloc: Global) -> Self
        ensures { result ≡ no_calls }
    {
        Calls {
            arguments: ValueStack::new(alloc),
            calls: ValueStack::new(alloc),
        }
    }

    /// Does the action, on these parts.
    pub fn put(
        &mut self,
        alloc: Global,
        parts: &mut Parts,
        action: CallAction,
    ) -> Result<(), OutOfMemory>
        ensures { OnOk result ((b : Built) → put_call action (with_calls parts.old self.old b) ≡ with_calls parts.new self.new b) }
    {
        match action {
            CallAction::NoArgs => self.arguments.push(Rows::new(alloc)),
            CallAction::AddArgNumber => {
                let number = parts.take_number();
                self.arguments.extend(alloc, Arg::Number(number))
            }
            CallAction::AddArg => {
                let instance = parts.take_instance(alloc);
                let field = parts.field_options.pop_or(None);
                self.arguments.extend(alloc, arg_of(instance, field))
            }
            CallAction::NoCalls => self.calls.push(Rows::new(alloc)),
            CallAction::AddCall => {
                let name = parts.take_name(alloc);
                let arguments = self.arguments.pop_list(alloc);
                self.calls.extend(alloc, Call { name, arguments })
            }
        }
    }
}

/// The instance, or its field.
fn arg_of(instance: Inst, field: Option<Text>) -> Arg
    ensures { result ≡ arg_of instance field }
{
    match field {
        Some(field) => Arg::Field(Ref { instance, field }),
        None => Arg::Instance(instance),
    }
}
