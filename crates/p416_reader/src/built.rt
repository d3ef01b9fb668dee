// What is built while a text is read.
ghost use Rattle.std.specs.Prelude.{◌≡◌, OnOk};
ghost use Rattle.std.specs.List.{list_any};
ghost use Rattle.p416_syntax.specs.Keywords.{keyword_text16};
ghost use Rattle.p416_syntax.specs.Written.{property_word};
ghost use Rattle.p416_syntax.specs.Conditions.{is_name_note, is_among, property_texts};
ghost use Rattle.p416_reader.specs.internal.Built.{nothing};
ghost use Rattle.p416_reader.specs.internal.Classes.{accepts, shift};
ghost use Rattle.p416_reader.specs.internal.Actions.{put};
ghost use Rattle.p416_reader.specs.internal.Lexemes.{seen_of};

use crate::bodies::Bodies;
use crate::controls::Controls;
use crate::declarations::Decls;
use crate::operators::is_infix;
use crate::parts::Parts;
use crate::states::States;
use crate::symbols::{Action, Class};
use crate::token::TokenView;
use p4x_bits::{OutOfMemory, Rows, Text};
use p416_syntax::{Annotation16, Decl16, Keyword16, Mark16, Note, Property};
use std::alloc::Global;
use std::mem;

/// Stacks of the parts that aren't part of a declaration yet, and the declarations.
pub struct Built {
    pub parts: Parts,
    pub bodies: Bodies,
    pub states: States,
    pub controls: Controls,
    pub decls: Decls,
}

impl Drop for Built {
    fn drop(self) {
        let Built {
            parts: _parts,
            bodies: _bodies,
            states: _states,
            controls: _controls,
            decls: _decls,
        } = self;
    }
}

impl Built {
    /// Nothing.
    pub fn new(alloc: Global) -> Self
        ensures { result ≡ nothing }
    {
        Built {
            parts: Parts::new(alloc),
            bodies: Bodies::new(alloc),
            states: States::new(alloc),
            controls: Controls::new(alloc),
            decls: Decls::new(alloc),
        }
    }

    /// Takes the declarations out.
    pub fn take_decls(&mut self, alloc: Global) -> Rows<Decl16>
        ensures result { result ≡ self.old.decls.decls }
        ensures main { self.new.decls.main ≡ self.old.decls.main }
    {
        mem::replace(&mut self.decls.decls, Rows::new(alloc))
    }

    /// Takes the names of the blocks in `main` out.
    pub fn take_main(&mut self, alloc: Global) -> Rows<Text>
        ensures { result ≡ self.old.decls.main }
    {
        mem::replace(&mut self.decls.main, Rows::new(alloc))
    }

    /// Lets all parts go, one group after another.
    pub fn let_go(self) {
        let Built {
            parts,
            bodies,
            states,
            controls,
            decls: _decls,
        } = self;
        drop(parts);
        drop(bodies);
        drop(states);
        drop(controls);
    }

    /// Whether the token is of the class.
    pub fn accepts(&self, class: Class, token: TokenView<'_>) -> bool
        ensures { result ≡ accepts class (seen_of token.entry) self.now }
    {
        match class {
            Class::Mark(mark) => token.is_mark(mark),
            Class::Word(word) => token.is_quoted(word),
            Class::Known(name) => token.is_known(name),
            Class::Name => token.is_name(),
            Class::AnyWord => token.is_word(),
            Class::Number => token.is_number(),
            Class::String => token.is_string(),
            Class::At(annotation) => token.is_note(annotation),
            Class::NewNameNote => {
                token.is_note(Annotation16::Name) && !has_name_note(self.parts.notes.newest_list())
            }
            Class::Include(line) => token.is_include(line),
            Class::Opens => token.is_opens(),
            Class::NewProperty(word) => {
                token.is_quoted(word) && !has_property(self.controls.properties.newest_list(), word)
            }
            Class::CallEnd => token.is_mark(Mark16::Semicolon) && self.bodies.is_call(),
            Class::VarName => token.is_name() && self.bodies.is_type_like(),
            Class::Else => token.is_quoted(Keyword16::Else) && !self.bodies.is_open,
            Class::Infix(least, most) => is_infix(least, most, token),
            Class::Question(least, most) => {
                token.is_mark(Mark16::Question) && least == 0 && 1 <= most
            }
        }
    }

    /// Takes a token of the class, and keeps what is to be kept of it.
    pub fn shift(
        &mut self,
        alloc: Global,
        class: Class,
        token: TokenView<'_>,
    ) -> Result<(), OutOfMemory>
        ensures { OnOk result (self.new ≡ shift class (seen_of token.entry) self.old) }
    {
        match class {
            Class::Name | Class::AnyWord | Class::String | Class::VarName => {
                self.parts.push_name(alloc, token.text())
            }
            Class::Number => self.parts.literals.push(token.literal()),
            Class::Mark(_)
            | Class::Word(_)
            | Class::Known(_)
            | Class::At(_)
            | Class::NewNameNote
            | Class::Include(_)
            | Class::Opens
            | Class::NewProperty(_)
            | Class::CallEnd
            | Class::Else
            | Class::Infix(_, _)
            | Class::Question(_, _) => Ok(()),
        }
    }

    /// Does the action.
    pub fn put(&mut self, alloc: Global, action: Action) -> Result<(), OutOfMemory>
        ensures { OnOk result (self.new ≡ put action self.old) }
    {
        match action {
            Action::Part(action) => self.parts.put(alloc, action),
            Action::Body(action) => self.bodies.put(alloc, &mut self.parts, action),
            Action::State(action) => {
                self.states
                    .put(alloc, &mut self.parts, &mut self.bodies, action)
            }
            Action::Control(action) => self.controls.put(
                alloc,
                &mut self.parts,
                &mut self.bodies,
                &mut self.states,
                action,
            ),
            Action::Decl(action) => self.put_decl(alloc, action),
        }
    }
}

/// Whether `@name` stands among the annotations.
fn has_name_note(notes: &[Note]) -> bool
    ensures { result ≡ list_any is_name_note notes.now }
{
    notes.iter().any(|note| matches!(note, Note::Name(_)))
}

/// Whether a property that begins with this word stands among these.
fn has_property(properties: &[Property], word: Keyword16) -> bool
    ensures { result ≡ is_among (keyword_text16 word) (property_texts properties.now) }
{
    for property in properties {
        if word.text() == word_of(property).text() {
            return true;
        }
    }
    false
}

/// The word that a property begins with.
fn word_of(property: &Property) -> Keyword16
    ensures { result ≡ property_word property.now }
{
    match property {
        Property::Key(_) => Keyword16::Key,
        Property::Actions(_) => Keyword16::Actions,
        Property::Size(_) => Keyword16::Size,
        Property::Counters(_) => Keyword16::Counters,
        Property::DefaultAction(_, _) => Keyword16::DefaultAction,
    }
}
