// Controls, as they are put together.
ghost use Rattle.std.specs.Prelude.{◌≡◌, OnOk, [], ◌∷◌};
ghost use Rattle.predictive_parser.specs.Values.{newest, older, extended};
ghost use Rattle.p416_syntax.specs.declared.controls.ActionName.TheVariants as action_name;
ghost use Rattle.p416_syntax.specs.declared.controls.Instance.TheVariants as instance;
ghost use Rattle.p416_reader.specs.declared.built.Built.{Built};
ghost use Rattle.p416_syntax.specs.declared.controls.Local.TheVariants as local;
ghost use Rattle.p416_reader.specs.internal.Built.{no_controls};
ghost use Rattle.p416_reader.specs.internal.Actions.{put_control, no_instance, first_exp, first_stmt, last_name, last_member, last_literal, last_notes, without_name, without_member, without_literal, without_notes, without_exp, without_block, with_controls};

use crate::bodies::Bodies;
use crate::parts::Parts;
use crate::states::States;
use crate::symbols::ControlAction;
use p4x_bits::{OutOfMemory, Rows, Text};
use p416_syntax::{
    Action16, ActionName, HashAlgorithm, Instance, Local, Member, Property, Table16, TableKey,
};
use predictive_parser::ValueStack;
use std::alloc::Global;

/// Stacks of the parts of controls.
pub struct Controls {
    pub instances: ValueStack<Instance>,
    pub action_names: ValueStack<ActionName>,
    pub action_lists: ValueStack<Rows<ActionName>>,
    pub keys: ValueStack<Rows<TableKey>>,
    pub properties: ValueStack<Rows<Property>>,
    pub locals: ValueStack<Rows<Local>>,
}

impl Drop for Controls {
    fn drop(self) {
        let Controls {
            instances: _instances,
            action_names: _action_names,
            action_lists: _action_lists,
            keys: _keys,
            properties: _properties,
            locals: _locals,
        } = self;
    }
}

impl Controls {
    /// No parts.
    pub fn new(alloc: Global) -> Self
        ensures { result ≡ no_controls }
    {
        Controls {
            instances: ValueStack::new(alloc),
            action_names: ValueStack::new(alloc),
            action_lists: ValueStack::new(alloc),
            keys: ValueStack::new(alloc),
            properties: ValueStack::new(alloc),
            locals: ValueStack::new(alloc),
        }
    }

    /// Takes the newest object.
    pub fn take_instance(&mut self, alloc: Global) -> Instance
        ensures newest { result ≡ newest no_instance self.old.instances }
        ensures older { self.new ≡ record self.old { instances = older self.old.instances } }
    {
        let none = Instance::DirectCounter(
            Member::HashAlgorithm(HashAlgorithm::Csum16),
            Text::new(alloc),
        );
        self.instances.pop_or(none)
    }

    /// Does the action, on these parts.
    pub fn put(
        &mut self,
        alloc: Global,
        parts: &mut Parts,
        bodies: &mut Bodies,
        states: &mut States,
        action: ControlAction,
    ) -> Result<(), OutOfMemory>
        ensures { OnOk result ((b : Built) → put_control action (with_controls parts.old bodies.old states.old self.old b) ≡ with_controls parts.new bodies.new states.new self.new b) }
    {
        match action {
            ControlAction::Counter => {
                bodies.clear(alloc);
                self.counter(alloc, parts, states)
            }
            ControlAction::DirectCounter => {
                bodies.clear(alloc);
                let name = parts.take_name(alloc);
                let member = parts.take_member();
                self.instances.push(Instance::DirectCounter(member, name))
            }
            ControlAction::Register => {
                bodies.clear(alloc);
                self.register(alloc, parts, states)
            }
            ControlAction::Meter => {
                bodies.clear(alloc);
                self.meter(alloc, parts, states)
            }
            ControlAction::Declared => {
                let name = parts.take_name(alloc);
                self.action_names.push(ActionName::Declared(name))
            }
            ControlAction::NoAction => self.action_names.push(ActionName::NoAction),
            ControlAction::NoNames => self.action_lists.push(Rows::new(alloc)),
            ControlAction::AddName => self.add_name(alloc),
            ControlAction::NoKeys => {
                bodies.clear(alloc);
                self.keys.push(Rows::new(alloc))
            }
            ControlAction::AddKey => self.add_key(alloc, parts, states),
            ControlAction::NoProperties => {
                bodies.clear(alloc);
                self.properties.push(Rows::new(alloc))
            }
            ControlAction::AddKeys => {
                bodies.clear(alloc);
                self.properties
                    .extend(alloc, Property::Key(self.keys.pop_list(alloc)))
            }
            ControlAction::AddActions => {
                bodies.clear(alloc);
                self.properties.extend(alloc, Property::Actions(self.action_lists.pop_list(alloc)))
            }
            ControlAction::AddSize => {
                bodies.clear(alloc);
                self.properties
                    .extend(alloc, Property::Size(parts.take_literal()))
            }
            ControlAction::AddCounters => {
                bodies.clear(alloc);
                self.properties
                    .extend(alloc, Property::Counters(parts.take_name(alloc)))
            }
            ControlAction::AddDefault => {
                let arguments = bodies.take_exp(alloc)?;
                let name = self.action_names.pop_or(ActionName::NoAction);
                self.properties
                    .extend(alloc, Property::DefaultAction(name, arguments))
            }
            ControlAction::NoLocals => {
                bodies.clear(alloc);
                self.locals.push(Rows::new(alloc))
            }
            ControlAction::AddVar => {
                bodies.clear(alloc);
                let var = states.take_var(alloc, parts);
                self.locals.extend(alloc, Local::Var(var))
            }
            ControlAction::AddObject => {
                bodies.clear(alloc);
                let notes = parts.take_notes(alloc);
                let instance = self.take_instance(alloc);
                self.locals.extend(alloc, Local::Instance(notes, instance))
            }
            ControlAction::AddAction => {
                bodies.clear(alloc);
                self.add_action(alloc, parts, states)
            }
            ControlAction::AddTable => {
                bodies.clear(alloc);
                self.add_table(alloc, parts)
            }
        }
    }

    /// A counter of the newest parts.
    fn counter(
        &mut self,
        alloc: Global,
        parts: &mut Parts,
        states: &mut States,
    ) -> Result<(), OutOfMemory>
        ensures parts { OnOk result (parts.new ≡ without_member (without_name parts.old)) }
        ensures states { OnOk result (states.new ≡ without_exp states.old) }
        ensures instances { OnOk result (self.new ≡ record self.old { instances = instance.Counter (first_exp states.old.exps) (last_member parts.old) (last_name parts.old) ∷ self.old.instances }) }
    {
        let size = states.take_exp(alloc)?;
        let name = parts.take_name(alloc);
        let member = parts.take_member();
        self.instances.push(Instance::Counter(size, member, name))
    }

    /// A register of the newest parts.
    fn register(
        &mut self,
        alloc: Global,
        parts: &mut Parts,
        states: &mut States,
    ) -> Result<(), OutOfMemory>
        ensures parts { OnOk result (parts.new ≡ without_literal (without_name parts.old)) }
        ensures states { OnOk result (states.new ≡ without_exp states.old) }
        ensures instances { OnOk result (self.new ≡ record self.old { instances = instance.Register (last_literal parts.old) (first_exp states.old.exps) (last_name parts.old) ∷ self.old.instances }) }
    {
        let size = states.take_exp(alloc)?;
        let name = parts.take_name(alloc);
        let width = parts.take_literal();
        self.instances.push(Instance::Register(width, size, name))
    }

    /// A meter of the newest parts.
    fn meter(
        &mut self,
        alloc: Global,
        parts: &mut Parts,
        states: &mut States,
    ) -> Result<(), OutOfMemory>
        ensures parts { OnOk result (parts.new ≡ without_member (without_name parts.old)) }
        ensures states { OnOk result (states.new ≡ without_exp states.old) }
        ensures instances { OnOk result (self.new ≡ record self.old { instances = instance.Meter (first_exp states.old.exps) (last_member parts.old) (last_name parts.old) ∷ self.old.instances }) }
    {
        let size = states.take_exp(alloc)?;
        let name = parts.take_name(alloc);
        let member = parts.take_member();
        self.instances.push(Instance::Meter(size, member, name))
    }

    /// Puts the newest name of an action into the newest list.
    fn add_name(&mut self, alloc: Global) -> Result<(), OutOfMemory>
        ensures { OnOk result (self.new ≡ record self.old { action_names = older self.old.action_names; action_lists = extended (newest action_name.NoAction self.old.action_names ∷ []) self.old.action_lists }) }
    {
        let name = self.action_names.pop_or(ActionName::NoAction);
        self.action_lists.extend(alloc, name)
    }

    /// Puts a key into the newest list.
    fn add_key(
        &mut self,
        alloc: Global,
        parts: &mut Parts,
        states: &mut States,
    ) -> Result<(), OutOfMemory>
        ensures parts { OnOk result (parts.new ≡ without_notes (without_name parts.old)) }
        ensures states { OnOk result (states.new ≡ without_exp states.old) }
        ensures keys { OnOk result (self.new ≡ record self.old { keys = extended (record { exp = first_exp states.old.exps; kind = last_name parts.old; notes = last_notes parts.old } ∷ []) self.old.keys }) }
    {
        let exp = states.take_exp(alloc)?;
        let kind = parts.take_name(alloc);
        let notes = parts.take_notes(alloc);
        self.keys.extend(alloc, TableKey { exp, kind, notes })
    }

    /// Puts an action into the newest list of what a control declares.
    fn add_action(
        &mut self,
        alloc: Global,
        parts: &mut Parts,
        states: &mut States,
    ) -> Result<(), OutOfMemory>
        ensures parts { OnOk result (parts.new ≡ record (without_notes (without_name parts.old)) { params = older parts.old.params }) }
        ensures states { OnOk result (states.new ≡ without_block states.old) }
        ensures locals { OnOk result (self.new ≡ record self.old { locals = extended (local.Action (record { notes = last_notes parts.old; name = last_name parts.old; parameters = newest [] parts.old.params; body = first_stmt states.old.blocks }) ∷ []) self.old.locals }) }
    {
        let body = states.take_block(alloc)?;
        let notes = parts.take_notes(alloc);
        let name = parts.take_name(alloc);
        let parameters = parts.params.pop_list(alloc);
        let action = Action16 {
            notes,
            name,
            parameters,
            body,
        };
        self.locals.extend(alloc, Local::Action(action))
    }

    /// Puts a table into the newest list of what a control declares.
    fn add_table(&mut self, alloc: Global, parts: &mut Parts) -> Result<(), OutOfMemory>
        ensures parts { parts.new ≡ without_notes (without_name parts.old) }
        ensures locals { OnOk result (self.new ≡ record self.old { properties = older self.old.properties; locals = extended (local.Table (record { notes = last_notes parts.old; name = last_name parts.old; properties = newest [] self.old.properties }) ∷ []) self.old.locals }) }
    {
        let notes = parts.take_notes(alloc);
        let name = parts.take_name(alloc);
        let properties = self.properties.pop_list(alloc);
        let table = Table16 {
            notes,
            name,
            properties,
        };
        self.locals.extend(alloc, Local::Table(table))
    }
}
