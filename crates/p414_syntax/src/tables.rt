// Tables (P4_14 1.0.5, "Table Declarations").
ghost use Rattle.std.specs.Prelude.{◌≡◌, option_copied};
ghost use Rattle.p414_syntax.specs.Attributes.{reads_of, actions_of, min_size_of, max_size_of, size_of, support_timeout_of, default_action_of, default_arguments_of, action_profile_of};

use crate::lexeme::Literal;
use crate::parts::{Inst, Number, Ref};
use p4x_bits::{Rows, Text};

/// What a table reads.
pub enum ReadKey {
    /// A field.
    Field(Ref),
    /// An instance, for its validity.
    Instance(Inst),
}

impl Drop for ReadKey {
    fn drop(self) {
        match self {
            ReadKey::Field(_a) => {}
            ReadKey::Instance(_a) => {}
        }
    }
}

/// A line of `reads`: `KEY : KIND;`, maybe with `mask NUMBER` behind the key.
pub struct Read {
    /// What is read.
    pub key: ReadKey,
    /// The mask, where one is written.
    pub mask: Option<Literal>,
    /// The name of the match kind.
    pub kind: Text,
}

impl Drop for Read {
    fn drop(self) {
        let Read {
            key: _key,
            mask: _mask,
            kind: _kind,
        } = self;
    }
}

/// An attribute of a table. Each stands at most once in a table.
pub enum TableAttr {
    /// `reads { READ .. }`.
    Reads(Rows<Read>),
    /// `actions { NAME; .. }`, at least one name.
    Actions(Rows<Text>),
    /// `min_size : NUMBER;`.
    MinSize(Literal),
    /// `max_size : NUMBER;`.
    MaxSize(Literal),
    /// `size : NUMBER;`.
    Size(Literal),
    /// `support_timeout : true;` or `support_timeout : false;`.
    SupportTimeout(bool),
    /// `default_action : NAME;`, with the arguments where parentheses stand behind the name.
    DefaultAction(Text, Option<Rows<Number>>),
    /// `action_profile : NAME;`.
    ActionProfile(Text),
}

impl Drop for TableAttr {
    fn drop(self) {
        match self {
            TableAttr::Reads(_a) => {}
            TableAttr::Actions(_a) => {}
            TableAttr::MinSize(_a) => {}
            TableAttr::MaxSize(_a) => {}
            TableAttr::Size(_a) => {}
            TableAttr::SupportTimeout(_a) => {}
            TableAttr::DefaultAction(_a, _b) => {}
            TableAttr::ActionProfile(_a) => {}
        }
    }
}

/// `table NAME { ATTRIBUTE .. }`, with `actions` or `action_profile` among the attributes.
pub struct Table {
    /// The name.
    pub name: Text,
    /// The attributes in order.
    pub attributes: Rows<TableAttr>,
}

impl Drop for Table {
    fn drop(self) {
        let Table {
            name: _name,
            attributes: _attributes,
        } = self;
    }
}

impl Table {
    /// What the table reads, in order; nothing where there is no `reads`. The first such attribute counts.
    pub fn reads(&self) -> &[Read]
        ensures { result.now ≡ reads_of self.now.attributes }
    {
        for attribute in self.attributes.as_slice() {
            if let TableAttr::Reads(reads) = attribute {
                return reads.as_slice();
            }
        }
        &[]
    }

    /// The names of the table's actions, in order; none where there is no `actions`. The first such attribute counts.
    pub fn actions(&self) -> &[Text]
        ensures { result.now ≡ actions_of self.now.attributes }
    {
        for attribute in self.attributes.as_slice() {
            if let TableAttr::Actions(names) = attribute {
                return names.as_slice();
            }
        }
        &[]
    }

    /// The number behind `min_size`. The first such attribute counts.
    pub fn min_size(&self) -> Option<Literal>
        ensures { result ≡ min_size_of self.now.attributes }
    {
        for attribute in self.attributes.as_slice() {
            if let TableAttr::MinSize(size) = attribute {
                return Some(*size);
            }
        }
        None
    }

    /// The number behind `max_size`. The first such attribute counts.
    pub fn max_size(&self) -> Option<Literal>
        ensures { result ≡ max_size_of self.now.attributes }
    {
        for attribute in self.attributes.as_slice() {
            if let TableAttr::MaxSize(size) = attribute {
                return Some(*size);
            }
        }
        None
    }

    /// The number behind `size`. The first such attribute counts.
    pub fn size(&self) -> Option<Literal>
        ensures { result ≡ size_of self.now.attributes }
    {
        for attribute in self.attributes.as_slice() {
            if let TableAttr::Size(size) = attribute {
                return Some(*size);
            }
        }
        None
    }

    /// What stands behind `support_timeout`. The first such attribute counts.
    pub fn support_timeout(&self) -> Option<bool>
        ensures { result ≡ support_timeout_of self.now.attributes }
    {
        for attribute in self.attributes.as_slice() {
            if let TableAttr::SupportTimeout(on) = attribute {
                return Some(*on);
            }
        }
        None
    }

    /// The name of the default action. The first such attribute counts.
    pub fn default_action(&self) -> Option<&Text>
        ensures { option_copied result ≡ default_action_of self.now.attributes }
    {
        for attribute in self.attributes.as_slice() {
            if let TableAttr::DefaultAction(name, _) = attribute {
                return Some(name);
            }
        }
        None
    }

    /// The arguments of the default action, where parentheses stand behind its name. The first such attribute counts.
    pub fn default_arguments(&self) -> Option<&Rows<Number>>
        ensures { option_copied result ≡ default_arguments_of self.now.attributes }
    {
        for attribute in self.attributes.as_slice() {
            if let TableAttr::DefaultAction(_, arguments) = attribute {
                return arguments.as_ref();
            }
        }
        None
    }

    /// The name of the action profile. The first such attribute counts.
    pub fn action_profile(&self) -> Option<&Text>
        ensures { option_copied result ≡ action_profile_of self.now.attributes }
    {
        for attribute in self.attributes.as_slice() {
            if let TableAttr::ActionProfile(name) = attribute {
                return Some(name);
            }
        }
        None
    }
}
