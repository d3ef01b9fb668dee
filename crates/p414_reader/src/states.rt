// Parser states, as they are put together.
ghost use Rattle.std.specs.Prelude.{◌≡◌, OnOk, [], ◌∷◌, None};
ghost use Rattle.p414_syntax.specs.Conditions.{is_bare};
ghost use Rattle.p414_syntax.specs.declared.parsers.PValue.TheVariants as value;
ghost use Rattle.p414_syntax.specs.declared.parsers.PStmt.TheVariants as statement;
ghost use Rattle.p414_syntax.specs.declared.parsers.CaseValues.TheVariants as case_values;
ghost use Rattle.p414_syntax.specs.declared.parsers.CaseTarget.TheVariants as target;
ghost use Rattle.p414_syntax.specs.declared.parsers.Return.TheVariants as end_of;
ghost use Rattle.p414_syntax.specs.declared.keyword.Keyword.TheVariants as key;
ghost use Rattle.p414_syntax.specs.Keywords.{keyword_text};
ghost use Rattle.predictive_parser.specs.Values.{newest, older, extended};
ghost use Rattle.p414_reader.specs.declared.built.Built.{Built};
ghost use Rattle.p414_reader.specs.internal.Built.{no_states};
ghost use Rattle.p414_reader.specs.internal.Actions.{put_state, no_literal, last_literal, last_field, no_value, value_of, with_states};

use crate::parts::Parts;
use crate::symbols::StateAction;
use p4x_bits::{OutOfMemory, Rows, Text};
use p414_syntax::{
    Case, CaseTarget, CaseValues, Inst, Keyword, Masked, PStmt, PValue, Ref, Return,
};
use predictive_parser::ValueStack;
use std::alloc::Global;

/// Stacks of the parts of parser states.
pub struct States {
    pub values: ValueStack<PValue>,
    pub value_lists: ValueStack<Rows<PValue>>,
    pub statements: ValueStack<Rows<PStmt>>,
    pub masked: ValueStack<Rows<Masked>>,
    pub case_values: ValueStack<CaseValues>,
    pub targets: ValueStack<CaseTarget>,
    pub cases: ValueStack<Rows<Case>>,
    pub ends: ValueStack<Return>,
}

impl Drop for States {
    fn drop(self) {
        let States {
            values: _values,
            value_lists: _value_lists,
            statements: _statements,
            masked: _masked,
            case_values: _case_values,
            targets: _targets,
            cases: _cases,
            ends: _ends,
        } = self;
    }
}

impl States {
    /// No parts.
    pub fn new(alloc: Global) -> Self
        ensures { result ≡ no_states }
    {
        States {
            values: ValueStack::new(alloc),
            value_lists: ValueStack::new(alloc),
            statements: ValueStack::new(alloc),
            masked: ValueStack::new(alloc),
            case_values: ValueStack::new(alloc),
            targets: ValueStack::new(alloc),
            cases: ValueStack::new(alloc),
            ends: ValueStack::new(alloc),
        }
    }

    /// Takes the newest value.
    fn take_value(&mut self, alloc: Global) -> PValue
        ensures newest { result ≡ newest no_value self.old.values }
        ensures older { self.new ≡ record self.old { values = older self.old.values } }
    {
        self.values.pop_or(PValue::Latest(Text::new(alloc)))
    }

    /// Does the action, on these parts.
    pub fn put(
        &mut self,
        alloc: Global,
        parts: &mut Parts,
        action: StateAction,
    ) -> Result<(), OutOfMemory>
        ensures { OnOk result ((b : Built) → put_state action (with_states parts.old self.old b) ≡ with_states parts.new self.new b) }
    {
        match action {
            StateAction::ValueCurrent => self.add_current(parts),
            StateAction::ValueLatest => self.values.push(PValue::Latest(parts.take_name(alloc))),
            StateAction::ValueField => self.values.push(value_of(parts.take_field(alloc))),
            StateAction::ValueNumber => self.values.push(PValue::Number(parts.take_number())),
            StateAction::NoValues => self.value_lists.push(Rows::new(alloc)),
            StateAction::AddValue => self.add_value(alloc),
            StateAction::NoStatements => self.statements.push(Rows::new(alloc)),
            StateAction::AddExtract => {
                let instance = parts.take_instance(alloc);
                self.statements.extend(alloc, PStmt::Extract(instance))
            }
            StateAction::AddSetMetadata => self.add_set_metadata(alloc, parts),
            StateAction::NoMasked => self.masked.push(Rows::new(alloc)),
            StateAction::AddMasked => self.add_masked(alloc, parts),
            StateAction::CaseMasked => self.case_masked(alloc),
            StateAction::CaseDefault => self.case_values.push(CaseValues::Default),
            StateAction::TargetError => {
                self.targets
                    .push(CaseTarget::ParseError(parts.take_name(alloc)))
            }
            StateAction::TargetState => {
                self.targets.push(CaseTarget::State(parts.take_name(alloc)))
            }
            StateAction::TargetStateOf(word) => {
                self.targets.push(CaseTarget::State(word.to_text(alloc)?))
            }
            StateAction::NoCases => self.cases.push(Rows::new(alloc)),
            StateAction::AddCase => self.add_case(alloc),
            StateAction::ReturnSelect => self.add_select(alloc),
            StateAction::ReturnState => self.ends.push(Return::State(parts.take_name(alloc))),
            StateAction::ReturnStateOf(word) => {
                self.ends.push(Return::State(word.to_text(alloc)?))
            }
            StateAction::ReturnError => self.ends.push(Return::ParseError(parts.take_name(alloc))),
        }
    }

    /// `current` of the two newest numbers.
    fn add_current(&mut self, parts: &mut Parts) -> Result<(), OutOfMemory>
        ensures parts { parts.new ≡ record parts.old { literals = older (older parts.old.literals) } }
        ensures values { OnOk result (self.new ≡ record self.old { values = value.Current (newest no_literal (older parts.old.literals)) (last_literal parts.old) ∷ self.old.values }) }
    {
        let width = parts.take_literal();
        let offset = parts.take_literal();
        self.values.push(PValue::Current(offset, width))
    }

    /// Puts the newest value into the newest list.
    fn add_value(&mut self, alloc: Global) -> Result<(), OutOfMemory>
        ensures { OnOk result (self.new ≡ record self.old { values = older self.old.values; value_lists = extended (newest no_value self.old.values ∷ []) self.old.value_lists }) }
    {
        let value = self.take_value(alloc);
        self.value_lists.extend(alloc, value)
    }

    /// Puts `set_metadata` of the newest field and value into the newest list.
    fn add_set_metadata(&mut self, alloc: Global, parts: &mut Parts) -> Result<(), OutOfMemory>
        ensures parts { parts.new ≡ record parts.old { fields = older parts.old.fields } }
        ensures statements { OnOk result (self.new ≡ record self.old { values = older self.old.values; statements = extended (statement.SetMetadata (last_field parts.old) (newest no_value self.old.values) ∷ []) self.old.statements }) }
    {
        let field = parts.take_field(alloc);
        let value = self.take_value(alloc);
        self.statements
            .extend(alloc, PStmt::SetMetadata(field, value))
    }

    /// Puts the newest number and mask into the newest values of a case.
    fn add_masked(&mut self, alloc: Global, parts: &mut Parts) -> Result<(), OutOfMemory>
        ensures parts { parts.new ≡ record parts.old { literals = older parts.old.literals; literal_options = older parts.old.literal_options } }
        ensures masked { OnOk result (self.new ≡ record self.old { masked = extended (record { value = last_literal parts.old; mask = newest None parts.old.literal_options } ∷ []) self.old.masked }) }
    {
        let value = parts.take_literal();
        let mask = parts.literal_options.pop_or(None);
        self.masked.extend(alloc, Masked { value, mask })
    }

    /// The newest numbers and masks are the values of a case.
    fn case_masked(&mut self, alloc: Global) -> Result<(), OutOfMemory>
        ensures { OnOk result (self.new ≡ record self.old { masked = older self.old.masked; case_values = case_values.Values (newest [] self.old.masked) ∷ self.old.case_values }) }
    {
        let values = self.masked.pop_list(alloc);
        self.case_values.push(CaseValues::Values(values))
    }

    /// Puts a case into the newest list.
    fn add_case(&mut self, alloc: Global) -> Result<(), OutOfMemory>
        ensures { OnOk result (self.new ≡ record self.old { case_values = older self.old.case_values; targets = older self.old.targets; cases = extended (record { values = newest case_values.Default self.old.case_values; target = newest (target.State []) self.old.targets } ∷ []) self.old.cases }) }
    {
        let values = self.case_values.pop_or(CaseValues::Default);
        let target = self.targets.pop_or(CaseTarget::State(Text::new(alloc)));
        self.cases.extend(alloc, Case { values, target })
    }

    /// The state ends with the newest values and cases.
    fn add_select(&mut self, alloc: Global) -> Result<(), OutOfMemory>
        ensures { OnOk result (self.new ≡ record self.old { value_lists = older self.old.value_lists; cases = older self.old.cases; ends = end_of.Select (newest [] self.old.value_lists) (newest [] self.old.cases) ∷ self.old.ends }) }
    {
        let values = self.value_lists.pop_list(alloc);
        let cases = self.cases.pop_list(alloc);
        self.ends.push(Return::Select(values, cases))
    }
}

/// A field as a value. Without an index, a field of `latest` is one of the instance that was extracted last.
fn value_of(field: Ref) -> PValue
    ensures { result ≡ value_of field }
{
    if is_latest(&field.instance) {
        PValue::Latest(field.into_field())
    } else {
        PValue::Field(field)
    }
}

/// Whether the instance is the word `latest` alone.
fn is_latest(instance: &Inst) -> bool
    ensures { result ≡ is_bare (keyword_text key.Latest) instance.now }
{
    instance.name.as_slice() == Keyword::Latest.text() && instance.index.is_none()
}
