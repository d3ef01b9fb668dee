// Controls with their objects, variables, actions and tables (P4_16 1.2, "Control blocks").
ghost use Rattle.std.specs.Prelude.{◌≡◌, option_copied};
ghost use Rattle.p416_syntax.specs.Properties.{keys_of, actions_of, size_of, counters_of, default_action_of, default_arguments_of};

use crate::blocks::{Block16, Exp};
use crate::lexeme::Literal16;
use crate::parsers::Var;
use crate::parts::{Member, Note, Param};
use p4x_bits::{Rows, Text};

/// A stateful object of `v1model.p4`.
pub enum Instance {
    /// `counter(SIZE, MEMBER) NAME`.
    Counter(Exp, Member, Text),
    /// `direct_counter(MEMBER) NAME`.
    DirectCounter(Member, Text),
    /// `register<bit<WIDTH>>(SIZE) NAME`, with its width first.
    Register(Literal16, Exp, Text),
    /// `meter(SIZE, MEMBER) NAME`.
    Meter(Exp, Member, Text),
}

impl Drop for Instance {
    fn drop(self) {
        match self {
            Instance::Counter(_a, _b, _c) => {}
            Instance::DirectCounter(_a, _b) => {}
            Instance::Register(_a, _b, _c) => {}
            Instance::Meter(_a, _b, _c) => {}
        }
    }
}

/// `action NAME(PARAMETER, ..) { STATEMENT .. }`, maybe with annotations in front (P4_16 1.2, "Actions").
pub struct Action16 {
    /// The annotations in front.
    pub notes: Rows<Note>,
    /// The name.
    pub name: Text,
    /// The parameters in order.
    pub parameters: Rows<Param>,
    /// The statements.
    pub body: Block16,
}

impl Drop for Action16 {
    fn drop(self) {
        let Action16 {
            notes: _notes,
            name: _name,
            parameters: _parameters,
            body: _body,
        } = self;
    }
}

/// An action that a table names.
pub enum ActionName {
    /// An action of the control, by its name.
    Declared(Text),
    /// `NoAction`.
    NoAction,
}

impl Drop for ActionName {
    fn drop(self) {
        match self {
            ActionName::Declared(_a) => {}
            ActionName::NoAction => {}
        }
    }
}

/// A key of a table: `EXPRESSION : KIND;`, maybe with annotations in front of the `;`.
pub struct TableKey {
    /// What is matched.
    pub exp: Exp,
    /// The name of the match kind.
    pub kind: Text,
    /// The annotations.
    pub notes: Rows<Note>,
}

impl Drop for TableKey {
    fn drop(self) {
        let TableKey {
            exp: _exp,
            kind: _kind,
            notes: _notes,
        } = self;
    }
}

/// A property of a table. Each stands at most once in a table (P4_16 1.2, "Tables").
pub enum Property {
    /// `key = { KEY .. }`.
    Key(Rows<TableKey>),
    /// `actions = { NAME; .. }`, with at least one name.
    Actions(Rows<ActionName>),
    /// `size = NUMBER;`.
    Size(Literal16),
    /// `counters = NAME;`.
    Counters(Text),
    /// `default_action = NAME(..);`, with its argument list, in which no lists stand.
    DefaultAction(ActionName, Exp),
}

impl Drop for Property {
    fn drop(self) {
        match self {
            Property::Key(_a) => {}
            Property::Actions(_a) => {}
            Property::Size(_a) => {}
            Property::Counters(_a) => {}
            Property::DefaultAction(_a, _b) => {}
        }
    }
}

/// `table NAME { PROPERTY .. }`, with `actions` among the properties, and maybe with annotations in front.
pub struct Table16 {
    /// The annotations in front.
    pub notes: Rows<Note>,
    /// The name.
    pub name: Text,
    /// The properties in order.
    pub properties: Rows<Property>,
}

impl Drop for Table16 {
    fn drop(self) {
        let Table16 {
            notes: _notes,
            name: _name,
            properties: _properties,
        } = self;
    }
}

impl Table16 {
    /// The keys, in order; none where there is no `key`. The first such property counts.
    pub fn keys(&self) -> &[TableKey]
        ensures { result.now ≡ keys_of self.now.properties }
    {
        for property in self.properties.as_slice() {
            if let Property::Key(keys) = property {
                return keys.as_slice();
            }
        }
        &[]
    }

    /// The actions that the table names, in order; none where there is no `actions`. The first such property counts.
    pub fn actions(&self) -> &[ActionName]
        ensures { result.now ≡ actions_of self.now.properties }
    {
        for property in self.properties.as_slice() {
            if let Property::Actions(names) = property {
                return names.as_slice();
            }
        }
        &[]
    }

    /// The number behind `size`. The first such property counts.
    pub fn size(&self) -> Option<Literal16>
        ensures { result ≡ size_of self.now.properties }
    {
        for property in self.properties.as_slice() {
            if let Property::Size(size) = property {
                return Some(*size);
            }
        }
        None
    }

    /// The name of the direct counter. The first such property counts.
    pub fn counters(&self) -> Option<&Text>
        ensures { option_copied result ≡ counters_of self.now.properties }
    {
        for property in self.properties.as_slice() {
            if let Property::Counters(name) = property {
                return Some(name);
            }
        }
        None
    }

    /// The default action. The first such property counts.
    pub fn default_action(&self) -> Option<&ActionName>
        ensures { option_copied result ≡ default_action_of self.now.properties }
    {
        for property in self.properties.as_slice() {
            if let Property::DefaultAction(action, _) = property {
                return Some(action);
            }
        }
        None
    }

    /// The argument list of the default action. The first such property counts.
    pub fn default_arguments(&self) -> Option<&Exp>
        ensures { option_copied result ≡ default_arguments_of self.now.properties }
    {
        for property in self.properties.as_slice() {
            if let Property::DefaultAction(_, arguments) = property {
                return Some(arguments);
            }
        }
        None
    }
}

/// What is declared in a control.
pub enum Local {
    /// A stateful object, with the annotations in front.
    Instance(Rows<Note>, Instance),
    /// A variable.
    Var(Var),
    /// An action.
    Action(Action16),
    /// A table.
    Table(Table16),
}

impl Drop for Local {
    fn drop(self) {
        match self {
            Local::Instance(_a, _b) => {}
            Local::Var(_a) => {}
            Local::Action(_a) => {}
            Local::Table(_a) => {}
        }
    }
}

/// `control NAME(PARAMETER, ..) { LOCAL .. apply { STATEMENT .. } }`, with at least one parameter.
pub struct Control16 {
    /// The name.
    pub name: Text,
    /// The parameters in order.
    pub parameters: Rows<Param>,
    /// What is declared in it, in order.
    pub locals: Rows<Local>,
    /// The statements behind `apply`.
    pub body: Block16,
}

impl Drop for Control16 {
    fn drop(self) {
        let Control16 {
            name: _name,
            parameters: _parameters,
            locals: _locals,
            body: _body,
        } = self;
    }
}
