// Annotations, types, parameters and members of enumerations, as they are put together.
ghost use Rattle.std.specs.Prelude.{◌≡◌, [], ◌∷◌, None, OnOk};
ghost use Rattle.predictive_parser.specs.Values.{newest, older, extended};
ghost use Rattle.p416_syntax.specs.declared.parts.Note.TheVariants as note;
ghost use Rattle.p416_syntax.specs.declared.parts.Type16.TheVariants as kind;
ghost use Rattle.p416_syntax.specs.declared.parts.Direction.{Direction};
ghost use Rattle.p416_reader.specs.internal.Built.{no_parts};
ghost use Rattle.p416_reader.specs.internal.Actions.{last_name, last_literal, last_type, last_member, last_notes, without_name, without_literal, without_type, without_member, without_notes, put_part};

use crate::symbols::PartAction;
use p4x_bits::{OutOfMemory, Rows, Text};
use p416_syntax::{Direction, HashAlgorithm, Literal16, Member, Note, Param, Type16};
use predictive_parser::ValueStack;
use std::alloc::Global;

/// What stands where no number does.
const NO_LITERAL: Literal16 = Literal16 {
    width: None,
    value: 0,
};

/// Stacks of names, numbers, annotations, types, parameters and members of enumerations.
pub struct Parts {
    pub names: ValueStack<Text>,
    pub literals: ValueStack<Literal16>,
    pub literal_options: ValueStack<Option<Literal16>>,
    pub literal_lists: ValueStack<Rows<Literal16>>,
    pub notes: ValueStack<Rows<Note>>,
    pub types: ValueStack<Type16>,
    pub params: ValueStack<Rows<Param>>,
    pub members: ValueStack<Member>,
}

impl Drop for Parts {
    fn drop(self) {
        let Parts {
            names: _names,
            literals: _literals,
            literal_options: _literal_options,
            literal_lists: _literal_lists,
            notes: _notes,
            types: _types,
            params: _params,
            members: _members,
        } = self;
    }
}

impl Parts {
    /// No parts.
    pub fn new(alloc: Global) -> Self
        ensures { result ≡ no_parts }
    {
        Parts {
            names: ValueStack::new(alloc),
            literals: ValueStack::new(alloc),
            literal_options: ValueStack::new(alloc),
            literal_lists: ValueStack::new(alloc),
            notes: ValueStack::new(alloc),
            types: ValueStack::new(alloc),
            params: ValueStack::new(alloc),
            members: ValueStack::new(alloc),
        }
    }

    /// Keeps a copy of a name.
    pub fn push_name(&mut self, alloc: Global, name: &[u8]) -> Result<(), OutOfMemory>
        ensures { OnOk result (self.new ≡ record self.old { names = name.now ∷ self.old.names }) }
    {
        let name = Text::from_slice(alloc, name)?;
        self.names.push(name)
    }

    /// Takes the newest name.
    pub fn take_name(&mut self, alloc: Global) -> Text
        ensures newest { result ≡ last_name self.old }
        ensures older { self.new ≡ without_name self.old }
    {
        self.names.pop_or(Text::new(alloc))
    }

    /// Takes the newest number.
    pub fn take_literal(&mut self) -> Literal16
        ensures newest { result ≡ last_literal self.old }
        ensures older { self.new ≡ without_literal self.old }
    {
        self.literals.pop_or(NO_LITERAL)
    }

    /// Takes the newest type.
    pub fn take_type(&mut self) -> Type16
        ensures newest { result ≡ last_type self.old }
        ensures older { self.new ≡ without_type self.old }
    {
        self.types.pop_or(Type16::Bool)
    }

    /// Takes the newest member of an enumeration.
    pub fn take_member(&mut self) -> Member
        ensures newest { result ≡ last_member self.old }
        ensures older { self.new ≡ without_member self.old }
    {
        self.members
            .pop_or(Member::HashAlgorithm(HashAlgorithm::Csum16))
    }

    /// Takes the newest list of annotations.
    pub fn take_notes(&mut self, alloc: Global) -> Rows<Note>
        ensures newest { result ≡ last_notes self.old }
        ensures older { self.new ≡ without_notes self.old }
    {
        self.notes.pop_list(alloc)
    }

    /// Does the action.
    pub fn put(&mut self, alloc: Global, action: PartAction) -> Result<(), OutOfMemory>
        ensures { OnOk result (self.new ≡ put_part action self.old) }
    {
        match action {
            PartAction::TypeBit => {
                let width = self.literals.pop_or(NO_LITERAL);
                self.types.push(Type16::Bit(width))
            }
            PartAction::TypeBool => self.types.push(Type16::Bool),
            PartAction::TypeNamed => self.named_type(alloc),
            PartAction::NoLiteral => self.literal_options.push(None),
            PartAction::SomeLiteral => {
                let literal = self.literals.pop_or(NO_LITERAL);
                self.literal_options.push(Some(literal))
            }
            PartAction::NoNumbers => self.literal_lists.push(Rows::new(alloc)),
            PartAction::AddNumber => {
                let literal = self.literals.pop_or(NO_LITERAL);
                self.literal_lists.extend(alloc, literal)
            }
            PartAction::NoNotes => self.notes.push(Rows::new(alloc)),
            PartAction::AddNameNote => self.add_name_note(alloc),
            PartAction::AddListNote => self.add_list_note(alloc),
            PartAction::NoParams => self.params.push(Rows::new(alloc)),
            PartAction::AddParam(direction) => self.add_param(alloc, direction),
            PartAction::Member(member) => self.members.push(member),
        }
    }

    /// A type by its name, or a header stack with its size.
    fn named_type(&mut self, alloc: Global) -> Result<(), OutOfMemory>
        ensures { OnOk result (self.new ≡ record self.old { names = older self.old.names; literal_options = older self.old.literal_options; types = kind.Named (last_name self.old) (newest None self.old.literal_options) ∷ self.old.types }) }
    {
        let name = self.names.pop_or(Text::new(alloc));
        let size = self.literal_options.pop_or(None);
        self.types.push(Type16::Named(name, size))
    }

    /// Puts `@name` of the newest text into the newest list of annotations.
    fn add_name_note(&mut self, alloc: Global) -> Result<(), OutOfMemory>
        ensures { OnOk result (self.new ≡ record self.old { names = older self.old.names; notes = extended (note.Name (last_name self.old) ∷ []) self.old.notes }) }
    {
        let name = self.names.pop_or(Text::new(alloc));
        self.notes.extend(alloc, Note::Name(name))
    }

    /// Puts `@field_list` of the newest numbers into the newest list of annotations.
    fn add_list_note(&mut self, alloc: Global) -> Result<(), OutOfMemory>
        ensures { OnOk result (self.new ≡ record self.old { literal_lists = older self.old.literal_lists; notes = extended (note.FieldList (newest [] self.old.literal_lists) ∷ []) self.old.notes }) }
    {
        let lists = self.literal_lists.pop_list(alloc);
        self.notes.extend(alloc, Note::FieldList(lists))
    }

    /// Puts a parameter of the newest type and name into the newest list.
    fn add_param(&mut self, alloc: Global, direction: Option<Direction>) -> Result<(), OutOfMemory>
        ensures { OnOk result (self.new ≡ record self.old { names = older self.old.names; types = older self.old.types; params = extended (record { direction = direction; of = last_type self.old; name = last_name self.old } ∷ []) self.old.params }) }
    {
        let of = self.types.pop_or(Type16::Bool);
        let name = self.names.pop_or(Text::new(alloc));
        self.params.extend(
            alloc,
            Param {
                direction,
                of,
                name,
            },
        )
    }
}
