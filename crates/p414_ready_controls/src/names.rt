// What the statements of controls name.
ghost use Rattle.std.specs.Prelude.{◌≡◌, ◌++◌, map, option_to_list, IfOk};
ghost use Rattle.p414_syntax.specs.References.{referred};
ghost use Rattle.p414_syntax.specs.Arguments.{action_number};
ghost use Rattle.p414_syntax.specs.ControlExpansion.{control_number};
ghost use Rattle.p414_sem.specs.Signatures.{signature14};
ghost use Rattle.p414_ready_controls.specs.Nodes.{kept_label, named_by, table_name, table_place, with_named};

use crate::nodes::ReadyLabel;
use match_core::{Signature, TableSig};
use name_numbers::{Numbering, narrow, number_names};
use p4x_bits::{OutOfMemory, Rows};
use p414_control_check::Controls;
use p414_names::Names14;
use p414_slots::Slots;
use p414_syntax::{Label, Sort};
use std::alloc::Global;
use std::marker::Model;

/// What the statements of a program's controls name: fields, tables, actions and controls, by number. Contracts see the
/// declarations of the program.
pub struct ControlNames<'n, 'a> {
    slots: Slots<'n, 'a>,
    controls: Controls<'n, 'a>,
    tables: Numbering<'n>,
}

impl Drop for ControlNames<'_, '_> {
    fn drop(self) {
        let ControlNames {
            slots: _slots,
            controls: _controls,
            tables: _tables,
        } = self;
    }
}

impl<'n, 'a> Model for ControlNames<'n, 'a> {
    ghost use Rattle.std.specs.Prelude.{List, ◌≡◌, map};
    ghost use Rattle.std.specs.Coded.{codes};
    ghost use Rattle.p414_syntax.specs.declared.syntax.Decl.{Decl};
    ghost use Rattle.p414_syntax.specs.contracts.syntax.Decl as declaration;
    ghost use Rattle.p414_sem.specs.Signatures.{signature14};
    ghost use Rattle.p414_ready_controls.specs.Nodes.{table_name};

    ghost Value = { List Decl };

    ghost coded = { Prim.hlevel (codes, declaration.the_row.coded) };

    ghost view = { λ n. n.slots };

    ghost invariant = { λ n. (n.controls ≡ n.slots) × (n.tables ≡ map table_name (signature14 n.slots).tables) };
}

/// The names of tables.
fn table_names(alloc: Global, tables: &[TableSig]) -> Result<Vec<&[u8]>, OutOfMemory>
    ensures { IfOk result (λ names. map referred names.items ≡ map table_name tables.now) }
{
    let mut names = Vec::new(alloc);
    for table in tables {
        names.push(table.name.as_slice())?;
    }
    Ok(names)
}

impl<'n, 'a> ControlNames<'n, 'a> {
    /// What is named in the program of these names, which has this signature. The one error is want of memory.
    pub fn of(
        alloc: Global,
        names: &'n Names14<'a>,
        signature: &'n Signature,
    ) -> Result<Self, OutOfMemory>
        requires { signature.now ≡ signature14 names.now }
        ensures { IfOk result (λ made. made ≡ names.now) }
    {
        let slots = Slots::of(alloc, names)?;
        let controls = Controls::of(alloc, names)?;
        let tables = table_names(alloc, signature.tables.as_slice())?;
        Ok(ControlNames {
            slots,
            controls,
            tables: number_names(alloc, tables)?,
        })
    }

    /// The names of the program.
    pub fn names(&self) -> &'n Names14<'a>
        ensures { result.now ≡ self.now }
    {
        self.slots.names()
    }

    /// The instances and fields.
    pub fn slots(&self) -> &Slots<'n, 'a>
        ensures { result.now ≡ self.now }
    {
        &self.slots
    }

    /// The controls.
    pub fn controls(&self) -> &Controls<'n, 'a>
        ensures { result.now ≡ self.now }
    {
        &self.controls
    }

    /// The number of a table in the order of the names of all tables; that behind the last of a name that none has.
    pub fn table(&self, name: &[u8]) -> Result<u32, OutOfMemory>
        ensures { IfOk result (λ number. number ≡ table_place self.now name.now) }
    {
        match self.tables.find(name) {
            Some(number) => Ok(number),
            None => narrow(self.tables.len()),
        }
    }

    /// The number of an action, in the order of declaration; none of a name that no action has.
    pub fn action(&self, name: &[u8]) -> Option<u32>
        ensures { result ≡ action_number self.now name.now }
    {
        self.slots.names().find(Sort::Action, name)
    }

    /// The number of a control, in the order of declaration; none of a name that no control has.
    pub fn control(&self, name: &[u8]) -> Result<Option<u32>, OutOfMemory>
        ensures { IfOk result (λ number. number ≡ control_number self.now name.now) }
    {
        match self.controls.number(name) {
            Some(number) => Ok(Some(narrow(number)?)),
            None => Ok(None),
        }
    }

    /// The label of a branch.
    pub fn label(&self, label: &Label) -> ReadyLabel
        ensures { result ≡ kept_label self.now label.now }
    {
        match label {
            Label::Hit => ReadyLabel::Hit,
            Label::Miss => ReadyLabel::Miss,
            Label::Default => ReadyLabel::Default,
            Label::Action(name) => ReadyLabel::Action(self.action(name.as_slice())),
        }
    }

    /// The actions that branches name, with one more branch of this label behind them.
    pub fn with_label(
        &self,
        named: Option<Rows<u32>>,
        label: &Label,
    ) -> Result<Option<Rows<u32>>, OutOfMemory>
        ensures { IfOk result (λ all. all ≡ with_named named (named_by self.now label.now)) }
    {
        match named {
            Some(named) => {
                let all = self.with_more(named, label)?;
                Ok(Some(all))
            }
            None => Ok(None),
        }
    }

    /// The same where there are some.
    fn with_more(&self, named: Rows<u32>, label: &Label) -> Result<Rows<u32>, OutOfMemory>
        ensures { IfOk result (λ all. all ≡ named ++ named_by self.now label.now) }
    {
        let mut all = named;
        if let Some(action) = self.labelled(label) {
            all.push(action)?;
        }
        Ok(all)
    }

    /// The action that a label names, if it names one.
    fn labelled(&self, label: &Label) -> Option<u32>
        ensures { option_to_list result ≡ named_by self.now label.now }
    {
        match label {
            Label::Action(name) => self.action(name.as_slice()),
            Label::Hit => None,
            Label::Miss => None,
            Label::Default => None,
        }
    }
}
