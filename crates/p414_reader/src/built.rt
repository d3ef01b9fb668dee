// What is built while a text is read.
ghost use Rattle.std.specs.Prelude.{◌≡◌, None, OnOk, IfOk};
ghost use Rattle.p414_reader.specs.internal.Built.{nothing};
ghost use Rattle.predictive_parser.specs.Values.{extended_option};
ghost use Rattle.p414_reader.specs.internal.Classes.{accepts, shift, with_name, with_label};
ghost use Rattle.p414_reader.specs.internal.Actions.{put};
ghost use Rattle.p414_reader.specs.internal.Lexemes.{lexeme_of};

use crate::attributes::has_word;
use crate::bodies::Bodies;
use crate::calculations::Calculations;
use crate::calls::Calls;
use crate::headers::Headers;
use crate::objects::put_object;
use crate::operators::{is_infix, is_prefix};
use crate::parts::Parts;
use crate::states::States;
use crate::symbols::{Action, Class};
use crate::tables::Tables;
use crate::token::TokenView;
use p4x_bits::{OutOfMemory, Rows};
use p414_syntax::{Decl, Lexeme, Mark, StateAttr};
use predictive_parser::ValueStack;
use std::alloc::Global;
use std::mem;

/// Stacks of the parts that aren't part of a declaration yet, and the declarations.
pub struct Built {
    pub parts: Parts,
    pub headers: Headers,
    pub calculations: Calculations,
    pub states: States,
    pub calls: Calls,
    pub tables: Tables,
    pub objects: ValueStack<Rows<StateAttr>>,
    pub bodies: Bodies,
    pub groups: ValueStack<Option<Rows<Lexeme>>>,
    pub decls: Rows<Decl>,
}

impl Drop for Built {
    fn drop(self) {
        let Built {
            parts: _parts,
            headers: _headers,
            calculations: _calculations,
            states: _states,
            calls: _calls,
            tables: _tables,
            objects: _objects,
            bodies: _bodies,
            groups: _groups,
            decls: _decls,
        } = self;
    }
}

impl Built {
    /// Nothing.
    pub fn new(alloc: Global) -> Self
        ensures { result ≡ nothing }
    {
        Built {
            parts: Parts::new(alloc),
            headers: Headers::new(alloc),
            calculations: Calculations::new(alloc),
            states: States::new(alloc),
            calls: Calls::new(alloc),
            tables: Tables::new(alloc),
            objects: ValueStack::new(alloc),
            bodies: Bodies::new(alloc),
            groups: ValueStack::new(alloc),
            decls: Rows::new(alloc),
        }
    }

    /// Takes the declarations out.
    pub fn take_decls(&mut self, alloc: Global) -> Rows<Decl>
        ensures { result ≡ self.old.decls }
    {
        mem::replace(&mut self.decls, Rows::new(alloc))
    }

    /// Lets all parts go, one group after another.
    pub fn let_go(self) {
        let Built {
            parts,
            headers,
            calculations,
            states,
            calls: _calls,
            tables: _tables,
            objects: _objects,
            bodies,
            groups: _groups,
            decls: _decls,
        } = self;
        drop(parts);
        drop(headers);
        drop(calculations);
        drop(states);
        drop(bodies);
    }

    /// Whether the token is of the class.
    pub fn accepts(&self, class: Class, token: TokenView<'_>) -> bool
        ensures { result ≡ accepts class (lexeme_of token.entry) self.now }
    {
        match class {
            Class::Mark(mark) => token.is_mark(mark),
            Class::Word(word) => token.is_word(word),
            Class::Name => token.is_name(),
            Class::Number => token.is_number(),
            Class::ExpressionName => token.is_expression_name(),
            Class::NewTail(word) => token.is_word(word) && !self.bodies.forest.has_tail(word),
            Class::NewTableAttr(word) => {
                token.is_word(word) && !has_word(self.tables.attributes.newest_list(), word.text())
            }
            Class::NewStateAttr(word) => {
                token.is_word(word) && !has_word(self.objects.newest_list(), word.text())
            }
            Class::NewLabel => token.is_name() && self.bodies.may_follow(token.text()),
            Class::Infix(least, most) => is_infix(least, most, token),
            Class::Prefix(least) => is_prefix(least, token),
            Class::GroupToken => !token.is_brace(),
            Class::GroupOpen => token.is_mark(Mark::BraceOpen),
            Class::GroupClose => token.is_mark(Mark::BraceClose),
        }
    }

    /// Takes a token of the class, and keeps what is to be kept of it.
    pub fn shift(
        &mut self,
        alloc: Global,
        class: Class,
        token: TokenView<'_>,
    ) -> Result<(), OutOfMemory>
        ensures { OnOk result (self.new ≡ shift class (lexeme_of token.entry) self.old) }
    {
        match class {
            Class::Name | Class::ExpressionName => self.parts.push_name(alloc, token.text()),
            Class::Number => self.parts.literals.push(token.literal()),
            Class::NewLabel => self.push_label(alloc, token.text()),
            Class::GroupToken | Class::GroupOpen | Class::GroupClose => {
                self.push_token(alloc, token)
            }
            Class::Mark(_)
            | Class::Word(_)
            | Class::NewTail(_)
            | Class::NewTableAttr(_)
            | Class::NewStateAttr(_)
            | Class::Infix(_, _)
            | Class::Prefix(_) => Ok(()),
        }
    }

    /// Keeps a label, as a name and among the labels of the newest list of branches.
    fn push_label(&mut self, alloc: Global, text: &[u8]) -> Result<(), OutOfMemory>
        ensures { OnOk result (self.new ≡ with_label text.now self.old) }
    {
        self.parts.push_name(alloc, text)?;
        self.bodies.add_label(alloc, text)
    }

    /// Keeps a token in the newest group.
    fn push_token(&mut self, alloc: Global, token: TokenView<'_>) -> Result<(), OutOfMemory>
        ensures { OnOk result (self.new ≡ record self.old { groups = extended_option (lexeme_of token.entry) self.old.groups }) }
    {
        let lexeme = token.to_lexeme(alloc)?;
        self.groups.extend_option(alloc, lexeme)
    }

    /// Does the action.
    pub fn put(&mut self, alloc: Global, action: Action) -> Result<(), OutOfMemory>
        ensures { OnOk result (self.new ≡ put action self.old) }
    {
        match action {
            Action::Part(action) => self.parts.put(alloc, action),
            Action::Header(action) => self.headers.put(alloc, &mut self.parts, action),
            Action::Calculation(action) => self.calculations.put(alloc, &mut self.parts, action),
            Action::State(action) => self.states.put(alloc, &mut self.parts, action),
            Action::Call(action) => self.calls.put(alloc, &mut self.parts, action),
            Action::Table(action) => self.tables.put(alloc, &mut self.parts, action),
            Action::Object(action) => put_object(alloc, &mut self.parts, &mut self.objects, action),
            Action::Body(action) => self.bodies.put(alloc, &mut self.parts, action),
            Action::NoGroup => self.groups.push(None),
            Action::EmptyGroup => self.groups.push(Some(Rows::new(alloc))),
            Action::AddDecl(kind) => self.add_decl(alloc, kind),
            Action::EndDecls => self.end(alloc),
        }
    }

    /// Begins the parts of expressions and controls anew.
    fn end(&mut self, alloc: Global) -> Result<(), OutOfMemory>
        ensures { OnOk result (self.new ≡ put Action.EndDecls self.old) }
    {
        self.bodies.clear(alloc);
        Ok(())
    }
}
