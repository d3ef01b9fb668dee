// The tables of the new names that a block is written with.
ghost use Rattle.std.specs.Prelude.{◌≡◌, ◌<◌, length, map};
ghost use Rattle.v1_core.specs.Frames.{of_headers, of_metadata, of_standard};
ghost use Rattle.agreement_of_meanings.specs.Shown.{fields_of, field_at, shown_at};
ghost use Rattle.lower_laws_base.specs.Context.{object_at, root_at};
ghost use Rattle.lower_rows.specs.Calculations.{calculation_at};
ghost use Rattle.lower_rows.specs.Named.{instance_shown, named_field, object_named};
ghost use Rattle.lower_laws_program.specs.Fits.{old_name};
ghost use Rattle.lower_laws_program.specs.Program.{root_name};
ghost use Rattle.lower_expressions.specs.Table.{at_in, copy_of, owner_of_form, words_in};

use lower_rows::{CalculationRow, FieldRow, Form, InstanceRow, ObjectRow};

/// Which variables what is written can name beside the parameters of its block.
#[derive(Clone, Copy, Drop)]
pub enum Variables {
    /// None: in a parser, in the deparser, and where checksums are verified or updated.
    Nothing,
    /// Those that hold copies of the parameters: in the statements of a pipeline.
    Copies,
    /// These, and those of the primitives of an action: in the body of an action.
    Primitives,
}

/// What a block is written with, each by its number: the new names of instances, fields, objects and parameters, the marks of field
/// lists, and what calculations read. Contracts see it by `words_in`.
#[derive(Clone, Copy)]
pub struct WordsTable<'t> {
    /// Which variables can be named.
    pub variables: Variables,
    /// The instances in the order of declaration.
    pub instances: &'t [InstanceRow],
    /// The mark of each field list, where it has one.
    pub marks: &'t [Option<u8>],
    /// The objects in the order of their numbers.
    pub objects: &'t [ObjectRow],
    /// The parameters of the action.
    pub parameters: &'t [FieldRow],
    /// The calculations in the order of declaration.
    pub calculations: &'t [CalculationRow],
}

/// Where operands are read.
#[derive(Clone, Copy, Drop)]
pub enum ReadAt {
    /// Where the parameters of the block stand.
    Now,
    /// Where their copies stand, which hold the state at the action's entry.
    Entry,
}

/// A field of these.
#[tactic(auto, using(crate::proofs::Numbered::field_is))]
pub fn field_in(fields: &[FieldRow], field: u32) -> &FieldRow
    requires { field < length fields.now }
    ensures { named_field result.now ≡ field_at (map named_field fields.now) field }
{
    &fields[field as usize]
}

/// A field of an instance.
#[tactic(auto, using(crate::proofs::Numbered::fields_are))]
pub fn instance_field(instance: &InstanceRow, field: u32) -> &FieldRow
    requires { field < length (fields_of (instance_shown instance.now)) }
    ensures { named_field result.now ≡ field_at (fields_of (instance_shown instance.now)) field }
{
    field_in(instance.fields.as_slice(), field)
}

/// The name of the parameter of a block in which instances of a form stand.
fn root_now(form: Form) -> &'static [u8]
    ensures { result.now ≡ root_name (owner_of_form form) }
{
    match form {
        Form::Header => b"hdr",
        Form::Stack => b"hdr",
        Form::Metadata => b"meta",
    }
}

/// The name of the variable that holds a copy of it.
fn root_old(form: Form) -> &'static [u8]
    ensures { result.now ≡ old_name (owner_of_form form) }
{
    match form {
        Form::Header => b"old_hdr",
        Form::Stack => b"old_hdr",
        Form::Metadata => b"old_meta",
    }
}

/// The same, where there are such variables.
fn root_copied(variables: Variables, form: Form) -> &'static [u8]
    ensures { result.now ≡ copy_of variables (owner_of_form form) }
{
    match variables {
        Variables::Nothing => b"",
        Variables::Copies => root_old(form),
        Variables::Primitives => root_old(form),
    }
}

/// The name of the variable that holds a copy of standard metadata, where there are such variables.
fn standard_copied(variables: Variables) -> &'static [u8]
    ensures { result.now ≡ copy_of variables of_standard }
{
    match variables {
        Variables::Nothing => b"",
        Variables::Copies => b"old_sm",
        Variables::Primitives => b"old_sm",
    }
}

impl<'t> WordsTable<'t> {
    /// An instance.
    #[tactic(auto, using(crate::proofs::Numbered::instance_is))]
    pub fn instance(&self, instance: u32) -> &'t InstanceRow
        requires { instance < length (words_in self.now).names.instances }
        ensures { instance_shown result.now ≡ shown_at (words_in self.now).names.instances instance }
    {
        &self.instances[instance as usize]
    }

    /// An object.
    #[tactic(auto, using(crate::proofs::Numbered::object_is))]
    pub fn object(&self, object: u32) -> &'t ObjectRow
        requires { object < length (words_in self.now).objects }
        ensures { object_named result.now ≡ object_at (words_in self.now).objects object }
    {
        &self.objects[object as usize]
    }

    /// A parameter of the action.
    pub fn parameter(&self, parameter: u32) -> &'t FieldRow
        requires { parameter < length (words_in self.now).parameters }
        ensures { named_field result.now ≡ field_at (words_in self.now).parameters parameter }
    {
        field_in(self.parameters, parameter)
    }

    /// A calculation.
    #[tactic(auto, using(crate::proofs::Numbered::calculation_is))]
    pub fn calculation(&self, calculation: u32) -> &'t CalculationRow
        requires { calculation < length self.now.calculations.now }
        ensures { result.now ≡ calculation_at self.now.calculations.now calculation }
    {
        &self.calculations[calculation as usize]
    }

    /// The name of the parameter in which an instance of a form stands, or of its copy.
    pub fn root(&self, at: ReadAt, form: Form) -> &'static [u8]
        ensures { result.now ≡ root_at (words_in self.now) (at_in at) (owner_of_form form) }
    {
        match at {
            ReadAt::Now => root_now(form),
            ReadAt::Entry => root_copied(self.variables, form),
        }
    }

    /// The name of the parameter of standard metadata, or of its copy.
    pub fn standard_root(&self, at: ReadAt) -> &'static [u8]
        ensures { result.now ≡ root_at (words_in self.now) (at_in at) of_standard }
    {
        match at {
            ReadAt::Now => b"sm",
            ReadAt::Entry => standard_copied(self.variables),
        }
    }
}
