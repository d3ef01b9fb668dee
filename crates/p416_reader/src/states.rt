// Parsers and their states, as they are put together.
ghost use Rattle.std.specs.Prelude.{◌≡◌, OnOk, IfOk, [], ◌∷◌, None, Some};
ghost use Rattle.predictive_parser.specs.Values.{newest, older, extended};
ghost use Rattle.p416_syntax.specs.declared.parsers.Simple.TheVariants as simple;
ghost use Rattle.p416_syntax.specs.declared.parsers.Keyset.TheVariants as keyset;
ghost use Rattle.p416_syntax.specs.declared.parsers.Target.TheVariants as target;
ghost use Rattle.p416_syntax.specs.declared.parsers.Transition.TheVariants as transition;
ghost use Rattle.p416_reader.specs.declared.built.Built.{Built};
ghost use Rattle.p416_reader.specs.internal.Built.{no_bodies, no_states};
ghost use Rattle.p416_reader.specs.internal.Actions.{put_state, first_exp, first_stmt, last_name, last_type, without_name, without_type, without_exp, without_block, with_states};

use crate::bodies::Bodies;
use crate::parts::Parts;
use crate::symbols::StateAction;
use p4x_bits::{OutOfMemory, Rows};
use p416_syntax::{
    Block16, Exp, ExpNode, Keyset, Nodes, SelectCase, Simple, State, StmtNode, Target, Transition,
    Var,
};
use predictive_parser::ValueStack;
use std::alloc::Global;

/// Stacks of the parts of parsers and their states.
pub struct States {
    pub exps: ValueStack<Exp>,
    pub exp_options: ValueStack<Option<Exp>>,
    pub exp_lists: ValueStack<Rows<Exp>>,
    pub simples: ValueStack<Simple>,
    pub simple_lists: ValueStack<Rows<Simple>>,
    pub keysets: ValueStack<Keyset>,
    pub targets: ValueStack<Target>,
    pub cases: ValueStack<Rows<SelectCase>>,
    pub transitions: ValueStack<Transition>,
    pub vars: ValueStack<Rows<Var>>,
    pub states: ValueStack<Rows<State>>,
    pub blocks: ValueStack<Block16>,
}

impl Drop for States {
    fn drop(self) {
        let States {
            exps: _exps,
            exp_options: _exp_options,
            exp_lists: _exp_lists,
            simples: _simples,
            simple_lists: _simple_lists,
            keysets: _keysets,
            targets: _targets,
            cases: _cases,
            transitions: _transitions,
            vars: _vars,
            states: _states,
            blocks: _blocks,
        } = self;
    }
}

impl States {
    /// No parts.
    pub fn new(alloc: Global) -> Self
        ensures { result ≡ no_states }
    {
        States {
            exps: ValueStack::new(alloc),
            exp_options: ValueStack::new(alloc),
            exp_lists: ValueStack::new(alloc),
            simples: ValueStack::new(alloc),
            simple_lists: ValueStack::new(alloc),
            keysets: ValueStack::new(alloc),
            targets: ValueStack::new(alloc),
            cases: ValueStack::new(alloc),
            transitions: ValueStack::new(alloc),
            vars: ValueStack::new(alloc),
            states: ValueStack::new(alloc),
            blocks: ValueStack::new(alloc),
        }
    }

    /// Takes the newest expression that was taken out.
    pub fn take_exp(&mut self, alloc: Global) -> Result<Exp, OutOfMemory>
        ensures exp { IfOk result (λ exp. exp ≡ first_exp self.old.exps) }
        ensures rest { self.new ≡ without_exp self.old }
    {
        match self.exps.pop() {
            Some(exp) => Ok(exp),
            None => no_exp(alloc),
        }
    }

    /// Takes the newest block.
    pub fn take_block(&mut self, alloc: Global) -> Result<Block16, OutOfMemory>
        ensures block { IfOk result (λ block. block ≡ first_stmt self.old.blocks) }
        ensures rest { self.new ≡ without_block self.old }
    {
        match self.blocks.pop() {
            Some(block) => Ok(block),
            None => no_block(alloc),
        }
    }

    /// Does the action, on these parts.
    pub fn put(
        &mut self,
        alloc: Global,
        parts: &mut Parts,
        bodies: &mut Bodies,
        action: StateAction,
    ) -> Result<(), OutOfMemory>
        ensures { OnOk result ((b : Built) → put_state action (with_states parts.old bodies.old self.old b) ≡ with_states parts.new bodies.new self.new b) }
    {
        match action {
            StateAction::TakeExp => {
                let exp = bodies.take_exp(alloc)?;
                self.exps.push(exp)
            }
            StateAction::NoExp => {
                bodies.clear(alloc);
                self.exp_options.push(None)
            }
            StateAction::SomeExp => {
                let exp = bodies.take_exp(alloc)?;
                self.exp_options.push(Some(exp))
            }
            StateAction::NoExps => {
                bodies.clear(alloc);
                self.exp_lists.push(Rows::new(alloc))
            }
            StateAction::AddExp => {
                let exp = bodies.take_exp(alloc)?;
                self.exp_lists.extend(alloc, exp)
            }
            StateAction::SimpleDefault => {
                bodies.clear(alloc);
                self.simples.push(Simple::Default)
            }
            StateAction::SimpleAny => {
                bodies.clear(alloc);
                self.simples.push(Simple::Any)
            }
            StateAction::SimpleMask => self.put_mask(alloc, bodies),
            StateAction::SimpleRange => self.put_range(alloc, bodies),
            StateAction::SimpleValue => {
                let exp = bodies.take_exp(alloc)?;
                self.simples.push(Simple::Value(exp))
            }
            StateAction::OneSimple => self.one_simple(alloc),
            StateAction::AddSimple => self.add_simple(alloc),
            StateAction::KeysetOne => self.one_keyset(),
            StateAction::KeysetTuple => self.tuple(alloc),
            StateAction::TupleOfOne => self.tuple_of_one(alloc, bodies),
            StateAction::TargetState => {
                let name = parts.take_name(alloc);
                self.targets.push(Target::State(name))
            }
            StateAction::TargetAccept => self.targets.push(Target::Accept),
            StateAction::TargetReject => self.targets.push(Target::Reject),
            StateAction::NoCases => {
                bodies.clear(alloc);
                self.cases.push(Rows::new(alloc))
            }
            StateAction::AddCase => self.add_case(alloc),
            StateAction::Go => {
                bodies.clear(alloc);
                self.go()
            }
            StateAction::Select => self.select(alloc),
            StateAction::NoVars => {
                bodies.clear(alloc);
                self.vars.push(Rows::new(alloc))
            }
            StateAction::AddVar => self.add_var(alloc, parts),
            StateAction::TakeBlock => {
                let block = bodies.take_block(alloc)?;
                self.blocks.push(block)
            }
            StateAction::NoStates => {
                bodies.clear(alloc);
                self.states.push(Rows::new(alloc))
            }
            StateAction::AddState => self.add_state(alloc, parts),
        }
    }

    /// A value with the newest mask.
    fn put_mask(&mut self, alloc: Global, bodies: &mut Bodies) -> Result<(), OutOfMemory>
        ensures bodies { OnOk result (bodies.new ≡ no_bodies) }
        ensures simples { OnOk result (self.new ≡ record self.old { exps = older self.old.exps; simples = simple.Mask (first_exp self.old.exps) (first_exp bodies.old.exps) ∷ self.old.simples }) }
    {
        let mask = bodies.take_exp(alloc)?;
        let value = self.take_exp(alloc)?;
        self.simples.push(Simple::Mask(value, mask))
    }

    /// A range up to the newest expression.
    fn put_range(&mut self, alloc: Global, bodies: &mut Bodies) -> Result<(), OutOfMemory>
        ensures bodies { OnOk result (bodies.new ≡ no_bodies) }
        ensures simples { OnOk result (self.new ≡ record self.old { exps = older self.old.exps; simples = simple.Range (first_exp self.old.exps) (first_exp bodies.old.exps) ∷ self.old.simples }) }
    {
        let high = bodies.take_exp(alloc)?;
        let low = self.take_exp(alloc)?;
        self.simples.push(Simple::Range(low, high))
    }

    /// Begins a list with what the newest key is compared with.
    fn one_simple(&mut self, alloc: Global) -> Result<(), OutOfMemory>
        ensures { OnOk result (self.new ≡ record self.old { simples = older self.old.simples; simple_lists = (newest simple.Any self.old.simples ∷ []) ∷ self.old.simple_lists }) }
    {
        let simple = self.simples.pop_or(Simple::Any);
        let mut list = Rows::new(alloc);
        list.push(simple)?;
        self.simple_lists.push(list)
    }

    /// Puts what the newest key is compared with into the newest list.
    fn add_simple(&mut self, alloc: Global) -> Result<(), OutOfMemory>
        ensures { OnOk result (self.new ≡ record self.old { simples = older self.old.simples; simple_lists = extended (newest simple.Any self.old.simples ∷ []) self.old.simple_lists }) }
    {
        let simple = self.simples.pop_or(Simple::Any);
        self.simple_lists.extend(alloc, simple)
    }

    /// A keyset without parentheses.
    fn one_keyset(&mut self) -> Result<(), OutOfMemory>
        ensures { OnOk result (self.new ≡ record self.old { simples = older self.old.simples; keysets = keyset.One (newest simple.Any self.old.simples) ∷ self.old.keysets }) }
    {
        let simple = self.simples.pop_or(Simple::Any);
        self.keysets.push(Keyset::One(simple))
    }

    /// A keyset in parentheses.
    fn tuple(&mut self, alloc: Global) -> Result<(), OutOfMemory>
        ensures { OnOk result (self.new ≡ record self.old { simple_lists = older self.old.simple_lists; keysets = keyset.Tuple (newest [] self.old.simple_lists) ∷ self.old.keysets }) }
    {
        let list = self.simple_lists.pop_list(alloc);
        self.keysets.push(Keyset::Tuple(list))
    }

    /// A keyset of one value in parentheses.
    fn tuple_of_one(&mut self, alloc: Global, bodies: &mut Bodies) -> Result<(), OutOfMemory>
        ensures bodies { OnOk result (bodies.new ≡ no_bodies) }
        ensures keysets { OnOk result (self.new ≡ record self.old { keysets = keyset.Tuple (simple.Value (first_exp bodies.old.exps) ∷ []) ∷ self.old.keysets }) }
    {
        let exp = bodies.take_exp(alloc)?;
        let mut list = Rows::new(alloc);
        list.push(Simple::Value(exp))?;
        self.keysets.push(Keyset::Tuple(list))
    }

    /// Puts a case into the newest list.
    fn add_case(&mut self, alloc: Global) -> Result<(), OutOfMemory>
        ensures { OnOk result (self.new ≡ record self.old { keysets = older self.old.keysets; targets = older self.old.targets; cases = extended (record { keyset = newest (keyset.Tuple []) self.old.keysets; target = newest target.Accept self.old.targets } ∷ []) self.old.cases }) }
    {
        let keyset = self.keysets.pop_or(Keyset::Tuple(Rows::new(alloc)));
        let target = self.targets.pop_or(Target::Accept);
        self.cases.extend(alloc, SelectCase { keyset, target })
    }

    /// A transition to the newest target.
    fn go(&mut self) -> Result<(), OutOfMemory>
        ensures { OnOk result (self.new ≡ record self.old { targets = older self.old.targets; transitions = transition.Go (newest target.Accept self.old.targets) ∷ self.old.transitions }) }
    {
        let target = self.targets.pop_or(Target::Accept);
        self.transitions.push(Transition::Go(target))
    }

    /// A transition by the newest keys and cases.
    fn select(&mut self, alloc: Global) -> Result<(), OutOfMemory>
        ensures { OnOk result (self.new ≡ record self.old { exp_lists = older self.old.exp_lists; cases = older self.old.cases; transitions = transition.Select (newest [] self.old.exp_lists) (newest [] self.old.cases) ∷ self.old.transitions }) }
    {
        let keys = self.exp_lists.pop_list(alloc);
        let cases = self.cases.pop_list(alloc);
        self.transitions.push(Transition::Select(keys, cases))
    }

    /// Takes the newest variable.
    pub fn take_var(&mut self, alloc: Global, parts: &mut Parts) -> Var
        ensures parts { parts.new ≡ without_type (without_name parts.old) }
        ensures rest { self.new ≡ record self.old { exp_options = older self.old.exp_options } }
        ensures var { result ≡ record { of = last_type parts.old; name = last_name parts.old; initial = newest None self.old.exp_options } }
    {
        let name = parts.take_name(alloc);
        let of = parts.take_type();
        let initial = self.exp_options.pop_or(None);
        Var { of, name, initial }
    }

    /// Puts the newest variable into the newest list.
    fn add_var(&mut self, alloc: Global, parts: &mut Parts) -> Result<(), OutOfMemory>
        ensures parts { parts.new ≡ without_type (without_name parts.old) }
        ensures vars { OnOk result (self.new ≡ record self.old { exp_options = older self.old.exp_options; vars = extended (record { of = last_type parts.old; name = last_name parts.old; initial = newest None self.old.exp_options } ∷ []) self.old.vars }) }
    {
        let var = self.take_var(alloc, parts);
        self.vars.extend(alloc, var)
    }

    /// Puts a state into the newest list.
    fn add_state(&mut self, alloc: Global, parts: &mut Parts) -> Result<(), OutOfMemory>
        ensures parts { OnOk result (parts.new ≡ without_name parts.old) }
        ensures states { OnOk result (self.new ≡ record self.old { blocks = older self.old.blocks; transitions = older self.old.transitions; states = extended (record { name = last_name parts.old; body = first_stmt self.old.blocks; transition = newest (transition.Go target.Accept) self.old.transitions } ∷ []) self.old.states }) }
    {
        let body = self.take_block(alloc)?;
        let name = parts.take_name(alloc);
        let transition = self.transitions.pop_or(Transition::Go(Target::Accept));
        self.states.extend(
            alloc,
            State {
                name,
                body,
                transition,
            },
        )
    }
}

/// An expression that stands where there is none.
fn no_exp(alloc: Global) -> Result<Exp, OutOfMemory>
    ensures { IfOk result (λ exp. exp ≡ first_exp []) }
{
    let mut nodes = Nodes::new(alloc);
    let place = nodes.expression(ExpNode::NoArguments)?;
    Ok(Exp::new(nodes, place))
}

/// A block that stands where there is none.
fn no_block(alloc: Global) -> Result<Block16, OutOfMemory>
    ensures { IfOk result (λ block. block ≡ first_stmt []) }
{
    let mut nodes = Nodes::new(alloc);
    let place = nodes.statement(StmtNode::NoStatements)?;
    Ok(Block16::new(nodes, place))
}
