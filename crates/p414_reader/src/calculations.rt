// Field lists and calculated fields, as they are put together.
ghost use Rattle.std.specs.Prelude.{◌≡◌, OnOk, [], ◌∷◌, None};
ghost use Rattle.p414_syntax.specs.Conditions.{is_bare};
ghost use Rattle.p414_syntax.specs.declared.keyword.Keyword.TheVariants as key;
ghost use Rattle.p414_syntax.specs.Keywords.{keyword_text};
ghost use Rattle.predictive_parser.specs.Values.{newest, older, extended};
ghost use Rattle.p414_reader.specs.declared.built.Built.{Built};
ghost use Rattle.p414_reader.specs.internal.Built.{no_calculations};
ghost use Rattle.p414_reader.specs.internal.Actions.{put_calculation, last_name, item_of, with_calculations};

use crate::parts::Parts;
use crate::symbols::CalculationAction;
use p4x_bits::{OutOfMemory, Rows, Text};
use p414_syntax::{Calc, CalcCond, CalcUse, Inst, Item, Keyword, Ref};
use predictive_parser::ValueStack;
use std::alloc::Global;

/// Stacks of the parts of field lists and calculated fields.
pub struct Calculations {
    pub items: ValueStack<Rows<Item>>,
    pub conditions: ValueStack<Option<CalcCond>>,
    pub entries: ValueStack<Rows<Calc>>,
}

impl Drop for Calculations {
    fn drop(self) {
        let Calculations {
            items: _items,
            conditions: _conditions,
            entries: _entries,
        } = self;
    }
}

impl Calculations {
    /// No parts.
    pub fn new(alloc: Global) -> Self
        ensures { result ≡ no_calculations }
    {
        Calculations {
            items: ValueStack::new(alloc),
            conditions: ValueStack::new(alloc),
            entries: ValueStack::new(alloc),
        }
    }

    /// Does the action, on these parts.
    pub fn put(
        &mut self,
        alloc: Global,
        parts: &mut Parts,
        action: CalculationAction,
    ) -> Result<(), OutOfMemory>
        ensures { OnOk result ((b : Built) → put_calculation action (with_calculations parts.old self.old b) ≡ with_calculations parts.new self.new b) }
    {
        match action {
            CalculationAction::NoItems => self.items.push(Rows::new(alloc)),
            CalculationAction::AddItemNumber => {
                self.items.extend(alloc, Item::Number(parts.take_literal()))
            }
            CalculationAction::AddItem => {
                let instance = parts.take_instance(alloc);
                let field = parts.field_options.pop_or(None);
                self.items.extend(alloc, item_of(instance, field))
            }
            CalculationAction::NoCond => self.conditions.push(None),
            CalculationAction::CondValid => {
                let condition = CalcCond::Valid(parts.take_instance(alloc));
                self.conditions.push(Some(condition))
            }
            CalculationAction::CondEqual => {
                let field = parts.take_field(alloc);
                let literal = parts.take_literal();
                let condition = CalcCond::Equal(field, literal);
                self.conditions.push(Some(condition))
            }
            CalculationAction::NoCalcs => self.entries.push(Rows::new(alloc)),
            CalculationAction::AddCalc(used_to) => self.add_calc(alloc, parts, used_to),
        }
    }

    /// Puts a line of the newest name and condition into the newest list.
    fn add_calc(
        &mut self,
        alloc: Global,
        parts: &mut Parts,
        used_to: CalcUse,
    ) -> Result<(), OutOfMemory>
        ensures parts { parts.new ≡ record parts.old { names = older parts.old.names } }
        ensures entries { OnOk result (self.new ≡ record self.old { conditions = older self.old.conditions; entries = extended (record { used_to = used_to; calculation = last_name parts.old; condition = newest None self.old.conditions } ∷ []) self.old.entries }) }
    {
        let calc = Calc {
            used_to,
            calculation: parts.take_name(alloc),
            condition: self.conditions.pop_or(None),
        };
        self.entries.extend(alloc, calc)
    }
}

/// The instance, or its field, or the payload.
fn item_of(instance: Inst, field: Option<Text>) -> Item
    ensures { result ≡ item_of instance field }
{
    match field {
        Some(field) => Item::Field(Ref { instance, field }),
        None => {
            if is_payload(&instance) {
                Item::Payload
            } else {
                Item::Instance(instance)
            }
        }
    }
}

/// Whether the instance is the word `payload` alone.
fn is_payload(instance: &Inst) -> bool
    ensures { result ≡ is_bare (keyword_text key.Payload) instance.now }
{
    instance.name.as_slice() == Keyword::Payload.text() && instance.index.is_none()
}
