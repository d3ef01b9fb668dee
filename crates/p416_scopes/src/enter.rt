// The scopes of parsers, controls and actions (P4_16 1.2, "Name resolution").
ghost use Rattle.std.specs.Prelude.{◌≡◌, ◌∷◌, [], map, length, take, OnOk, IfOk};
ghost use Rattle.p416_syntax.specs.Scopes.{is_written, known_parameter, inside};
ghost use Rattle.p416_syntax.specs.Declarations.{top_names, top_scope, known_var, known_state, known_local, parser_scope, control_scope, action_scope};
ghost use Rattle.p416_scopes.specs.Seen.{seen_scope, seen_declared};

use crate::scope::{Part, Scope};
use p4x_bits::OutOfMemory;
use p416_names::{Sort, Top, instance_name, instance_sort};
use p416_syntax::{Action16, Control16, Direction, Local, Param, Parser16, State, Var};
use std::alloc::Global;

/// A name that is to be declared.
#[derive(Clone, Copy, Drop)]
struct Declared<'a> {
    name: &'a [u8],
    sort: Sort<'a>,
}

/// Whether a parameter of this direction can be written.
fn is_written(direction: Option<Direction>) -> bool
    ensures { result ≡ is_written direction }
{
    match direction {
        Some(Direction::Out) => true,
        Some(Direction::InOut) => true,
        Some(Direction::In) => false,
        None => false,
    }
}

impl<'t, 'a> Scope<'t, 'a> {
    /// Declares a parameter whose type is looked up at the top.
    fn declare_parameter(&mut self, parameter: &'a Param) -> Result<(), OutOfMemory>
        ensures scope { OnOk result (seen_scope self.new ≡ inside (seen_scope self.old) (known_parameter (top_names self.old.top.now) parameter.now ∷ [])) }
        ensures top { self.new.top ≡ self.old.top }
    {
        let kind = self.top.kind_of_type(&parameter.of);
        let can_write = is_written(parameter.direction);
        self.declare(parameter.name.as_slice(), Sort::Value(kind, can_write))
    }

    /// Declares a variable whose type is looked up at the top.
    fn declare_var(&mut self, var: &'a Var) -> Result<(), OutOfMemory>
        ensures scope { OnOk result (seen_scope self.new ≡ inside (seen_scope self.old) (known_var (top_names self.old.top.now) var.now ∷ [])) }
        ensures top { self.new.top ≡ self.old.top }
    {
        let kind = self.top.kind_of_type(&var.of);
        self.declare(var.name.as_slice(), Sort::Value(kind, true))
    }

    /// Declares what a control declares; types are looked up at the top.
    fn declare_local(&mut self, declared: &'a Local) -> Result<(), OutOfMemory>
        ensures scope { OnOk result (seen_scope self.new ≡ inside (seen_scope self.old) (known_local (top_names self.old.top.now) declared.now ∷ [])) }
        ensures top { self.new.top ≡ self.old.top }
    {
        match declared {
            Local::Instance(_, instance) => {
                self.declare(instance_name(instance).as_slice(), instance_sort(instance))
            }
            Local::Var(var) => self.declare_var(var),
            Local::Action(action) => self.declare(action.name.as_slice(), Sort::Action(action)),
            Local::Table(table) => self.declare(table.name.as_slice(), Sort::Table(table)),
        }
    }

    /// Declares parameters whose types are looked up at the top; the first of them is the innermost.
    fn declare_parameters(&mut self, parameters: &'a [Param]) -> Result<(), OutOfMemory>
        ensures scope { OnOk result (seen_scope self.new ≡ inside (seen_scope self.old) (map (known_parameter (top_names self.old.top.now)) parameters.now)) }
        ensures top { self.new.top ≡ self.old.top }
    {
        for parameter in parameters.iter().rev() {
            self.declare_parameter(parameter)?;
        }
        Ok(())
    }

    /// Declares variables whose types are looked up at the top; the first of them is the innermost.
    fn declare_vars(&mut self, vars: &'a [Var]) -> Result<(), OutOfMemory>
        ensures scope { OnOk result (seen_scope self.new ≡ inside (seen_scope self.old) (map (known_var (top_names self.old.top.now)) vars.now)) }
        ensures top { self.new.top ≡ self.old.top }
    {
        for var in vars.iter().rev() {
            self.declare_var(var)?;
        }
        Ok(())
    }

    /// Declares states; the first of them is the innermost.
    fn declare_states(&mut self, states: &'a [State]) -> Result<(), OutOfMemory>
        ensures scope { OnOk result (seen_scope self.new ≡ inside (seen_scope self.old) (map known_state states.now)) }
        ensures top { self.new.top ≡ self.old.top }
    {
        for state in states.iter().rev() {
            self.declare(state.name.as_slice(), Sort::State)?;
        }
        Ok(())
    }

    /// Declares what a control declares; the first of it is the innermost.
    fn declare_locals(&mut self, locals: &'a [Local]) -> Result<(), OutOfMemory>
        ensures scope { OnOk result (seen_scope self.new ≡ inside (seen_scope self.old) (map (known_local (top_names self.old.top.now)) locals.now)) }
        ensures top { self.new.top ≡ self.old.top }
    {
        for declared in locals.iter().rev() {
            self.declare_local(declared)?;
        }
        Ok(())
    }

    /// The scope of a parser that stands at these places of `main`, or want of memory.
    pub fn of_parser(
        alloc: Global,
        top: &'t Top<'a>,
        positions: &'t [usize],
        parser: &'a Parser16,
    ) -> Result<Self, OutOfMemory>
        ensures scope { IfOk result (λ s. seen_scope s ≡ parser_scope (top_scope top.now positions.now) parser.now) }
        ensures top { IfOk result (λ s. s.top ≡ top.entry) }
    {
        let mut scope = Scope::new(alloc, top, positions, Part::InParser);
        scope.declare_states(parser.states.as_slice())?;
        scope.declare_vars(parser.vars.as_slice())?;
        scope.declare_parameters(parser.parameters.as_slice())?;
        Ok(scope)
    }

    /// The scope of a control that stands at these places of `main`, or want of memory.
    pub fn of_control(
        alloc: Global,
        top: &'t Top<'a>,
        positions: &'t [usize],
        control: &'a Control16,
    ) -> Result<Self, OutOfMemory>
        ensures scope { IfOk result (λ s. seen_scope s ≡ control_scope (top_scope top.now positions.now) control.now) }
        ensures top { IfOk result (λ s. s.top ≡ top.entry) }
    {
        let mut scope = Scope::new(alloc, top, positions, Part::InApply);
        scope.declare_locals(control.locals.as_slice())?;
        scope.declare_parameters(control.parameters.as_slice())?;
        Ok(scope)
    }

    /// What parameters declare; their types are looked up in this scope.
    fn parameters_within(
        &self,
        alloc: Global,
        parameters: &'a [Param],
    ) -> Result<Vec<Declared<'a>>, OutOfMemory>
        ensures { IfOk result (λ found. map (seen_declared (top_names self.now.top.now)) found.items ≡ map (known_parameter (seen_scope self.now).names) parameters.now) }
    {
        let mut found = Vec::new(alloc);
        for parameter in parameters {
            let kind = self.kind_of_type(&parameter.of);
            let sort = Sort::Value(kind, is_written(parameter.direction));
            found.push(Declared {
                name: parameter.name.as_slice(),
                sort,
            })?;
        }
        Ok(found)
    }

    #[tactic(auto, using(crate::proofs::Scopes::kept_front))]
    /// Declares these; the first of them is the innermost.
    fn declare_all(&mut self, declared: &[Declared<'a>]) -> Result<(), OutOfMemory>
        ensures scope { OnOk result (seen_scope self.new ≡ inside (seen_scope self.old) (map (seen_declared (top_names self.old.top.now)) declared.now)) }
        ensures top { self.new.top ≡ self.old.top }
        ensures names { OnOk result (take (length self.old.names) self.new.names ≡ self.old.names) }
        ensures sorts { OnOk result (take (length self.old.sorts.items) self.new.sorts.items ≡ self.old.sorts.items) }
    {
        for next in declared.iter().rev() {
            self.declare(next.name, next.sort)?;
        }
        Ok(())
    }

    /// Enters an action of the control whose scope this is: its parameters are declared inside. What was declared before
    /// stays in front, so that the scope can be shortened to it again. For want of memory some of the names are declared.
    pub fn enter_action(&mut self, alloc: Global, action: &'a Action16) -> Result<(), OutOfMemory>
        ensures scope { OnOk result (seen_scope self.new ≡ action_scope (seen_scope self.old) action.now) }
        ensures top { self.new.top ≡ self.old.top }
        ensures names { OnOk result (take (length self.old.names) self.new.names ≡ self.old.names) }
        ensures sorts { OnOk result (take (length self.old.sorts.items) self.new.sorts.items ≡ self.old.sorts.items) }
    {
        let parameters = self.parameters_within(alloc, action.parameters.as_slice())?;
        self.declare_all(&parameters)?;
        self.part = Part::InAction(action.name.as_slice());
        Ok(())
    }
}
