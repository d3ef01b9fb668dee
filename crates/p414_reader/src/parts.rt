// Names, numbers, instances and fields, as they are put together.
ghost use Rattle.std.specs.Prelude.{◌≡◌, [], ◌∷◌, None, OnOk};
ghost use Rattle.predictive_parser.specs.Values.{newest, older};
ghost use Rattle.p414_reader.specs.internal.Built.{no_parts};
ghost use Rattle.p414_reader.specs.internal.Actions.{last_name, last_literal, last_instance, last_field, no_number, no_instance, put_part};
ghost use Rattle.p414_reader.specs.declared.symbols.PartAction.TheVariants as PartAction;

use crate::symbols::PartAction;
use p4x_bits::{OutOfMemory, Rows, Text};
use p414_syntax::{Index, Inst, Keyword, Literal, Number, Ref};
use predictive_parser::ValueStack;
use std::alloc::Global;

/// What stands where no number does.
const NO_LITERAL: Literal = Literal {
    width: None,
    value: 0,
};

/// Stacks of names, numbers, instances and fields.
pub struct Parts {
    pub names: ValueStack<Text>,
    pub name_lists: ValueStack<Rows<Text>>,
    pub literals: ValueStack<Literal>,
    pub literal_options: ValueStack<Option<Literal>>,
    pub numbers: ValueStack<Number>,
    pub arguments: ValueStack<Option<Rows<Number>>>,
    pub indexes: ValueStack<Option<Index>>,
    pub instances: ValueStack<Inst>,
    pub fields: ValueStack<Ref>,
    pub field_options: ValueStack<Option<Text>>,
}

impl Drop for Parts {
    fn drop(self) {
        let Parts {
            names: _names,
            name_lists: _name_lists,
            literals: _literals,
            literal_options: _literal_options,
            numbers: _numbers,
            arguments: _arguments,
            indexes: _indexes,
            instances: _instances,
            fields: _fields,
            field_options: _field_options,
        } = self;
    }
}

impl Parts {
    /// No parts.
    pub fn new(alloc: Global) -> Self
        ensures { result ≡ no_parts }
    {
        Parts {
            names: ValueStack::new(alloc),
            name_lists: ValueStack::new(alloc),
            literals: ValueStack::new(alloc),
            literal_options: ValueStack::new(alloc),
            numbers: ValueStack::new(alloc),
            arguments: ValueStack::new(alloc),
            indexes: ValueStack::new(alloc),
            instances: ValueStack::new(alloc),
            fields: ValueStack::new(alloc),
            field_options: ValueStack::new(alloc),
        }
    }

    /// Keeps a copy of a name.
    pub fn push_name(&mut self, alloc: Global, name: &[u8]) -> Result<(), OutOfMemory>
        ensures { OnOk result (self.new ≡ record self.old { names = name.now ∷ self.old.names }) }
    {
        let name = Text::from_slice(alloc, name)?;
        self.names.push(name)
    }

    /// Takes the newest name.
    pub fn take_name(&mut self, alloc: Global) -> Text
        ensures newest { result ≡ last_name self.old }
        ensures older { self.new ≡ record self.old { names = older self.old.names } }
    {
        self.names.pop_or(Text::new(alloc))
    }

    /// Takes the newest number without a sign.
    pub fn take_literal(&mut self) -> Literal
        ensures newest { result ≡ last_literal self.old }
        ensures older { self.new ≡ record self.old { literals = older self.old.literals } }
    {
        self.literals.pop_or(NO_LITERAL)
    }

    /// Takes the newest number with its sign.
    pub fn take_number(&mut self) -> Number
        ensures newest { result ≡ newest no_number self.old.numbers }
        ensures older { self.new ≡ record self.old { numbers = older self.old.numbers } }
    {
        self.numbers.pop_or(Number {
            sign: None,
            literal: NO_LITERAL,
        })
    }

    /// Takes the newest instance.
    pub fn take_instance(&mut self, alloc: Global) -> Inst
        ensures newest { result ≡ last_instance self.old }
        ensures older { self.new ≡ record self.old { instances = older self.old.instances } }
    {
        self.instances.pop_or(no_instance(alloc))
    }

    /// Takes the newest field.
    pub fn take_field(&mut self, alloc: Global) -> Ref
        ensures newest { result ≡ last_field self.old }
        ensures older { self.new ≡ record self.old { fields = older self.old.fields } }
    {
        self.fields.pop_or(Ref {
            instance: no_instance(alloc),
            field: Text::new(alloc),
        })
    }

    /// Does the action.
    pub fn put(&mut self, alloc: Global, action: PartAction) -> Result<(), OutOfMemory>
        ensures { OnOk result (self.new ≡ put_part action self.old) }
    {
        match action {
            PartAction::NoNames => self.name_lists.push(Rows::new(alloc)),
            PartAction::AddName => self.add_name(alloc),
            PartAction::NoLiteral => self.literal_options.push(None),
            PartAction::SomeLiteral => {
                let literal = self.literals.pop_or(NO_LITERAL);
                self.literal_options.push(Some(literal))
            }
            PartAction::Number(sign) => {
                let literal = self.literals.pop_or(NO_LITERAL);
                self.numbers.push(Number { sign, literal })
            }
            PartAction::NoArguments => self.arguments.push(None),
            PartAction::EmptyArguments => self.arguments.push(Some(Rows::new(alloc))),
            PartAction::AddNumber => self.add_number(alloc),
            PartAction::NoIndex => self.indexes.push(None),
            PartAction::IndexAt => {
                let literal = self.literals.pop_or(NO_LITERAL);
                self.indexes.push(Some(Index::At(literal)))
            }
            PartAction::IndexNext => self.indexes.push(Some(Index::Next)),
            PartAction::IndexLast => self.indexes.push(Some(Index::Last)),
            PartAction::Inst => self.instance(alloc),
            PartAction::InstOf(word) => self.instance_of(alloc, word),
            PartAction::Ref => self.field(alloc),
            PartAction::RefOf(word) => self.field_of(alloc, word),
            PartAction::NoField => self.field_options.push(None),
            PartAction::SomeField => {
                let name = self.names.pop_or(Text::new(alloc));
                self.field_options.push(Some(name))
            }
        }
    }

    /// Puts the newest name into the newest list.
    fn add_name(&mut self, alloc: Global) -> Result<(), OutOfMemory>
        ensures { OnOk result (self.new ≡ put_part PartAction.AddName self.old) }
    {
        let name = self.names.pop_or(Text::new(alloc));
        self.name_lists.extend(alloc, name)
    }

    /// Puts the newest number into the newest arguments.
    fn add_number(&mut self, alloc: Global) -> Result<(), OutOfMemory>
        ensures { OnOk result (self.new ≡ put_part PartAction.AddNumber self.old) }
    {
        let number = self.take_number();
        self.arguments.extend_option(alloc, number)
    }

    /// An instance of the newest name and index.
    fn instance(&mut self, alloc: Global) -> Result<(), OutOfMemory>
        ensures { OnOk result (self.new ≡ put_part PartAction.Inst self.old) }
    {
        let name = self.names.pop_or(Text::new(alloc));
        let index = self.indexes.pop_or(None);
        self.instances.push(Inst { name, index })
    }

    /// An instance of the word and the newest index.
    fn instance_of(&mut self, alloc: Global, word: Keyword) -> Result<(), OutOfMemory>
        ensures { OnOk result (self.new ≡ put_part (PartAction.InstOf word) self.old) }
    {
        let name = word.to_text(alloc)?;
        let index = self.indexes.pop_or(None);
        self.instances.push(Inst { name, index })
    }

    /// A field of the newest instance, by the newest name.
    fn field(&mut self, alloc: Global) -> Result<(), OutOfMemory>
        ensures { OnOk result (self.new ≡ put_part PartAction.Ref self.old) }
    {
        let field = self.names.pop_or(Text::new(alloc));
        let instance = self.instances.pop_or(no_instance(alloc));
        self.fields.push(Ref { instance, field })
    }

    /// A field of the instance of the word, by the newest name.
    fn field_of(&mut self, alloc: Global, word: Keyword) -> Result<(), OutOfMemory>
        ensures { OnOk result (self.new ≡ put_part (PartAction.RefOf word) self.old) }
    {
        let name = word.to_text(alloc)?;
        let field = self.names.pop_or(Text::new(alloc));
        let index = None;
        let instance = Inst { name, index };
        self.fields.push(Ref { instance, field })
    }
}

/// What stands where no instance does.
fn no_instance(alloc: Global) -> Inst
    ensures { result ≡ no_instance }
{
    Inst {
        name: Text::new(alloc),
        index: None,
    }
}
