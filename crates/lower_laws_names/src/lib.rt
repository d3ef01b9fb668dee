//! The P4_16 names of what a P4_14 program declares, what the translated text declares at its top, the marks of
//! preserved fields, and the copies of actions, as definitions in `specs/`, with laws of them. Each law is the contract
//! of a function that does nothing.
#![tactic(auto)]

ghost use Rattle.lower_laws_names.specs.NameLaws.{NamesAreWritable, OuterNamesDiffer, SortsDiffer, StatesDiffer, MembersDiffer, VariablesDiffer};
ghost use Rattle.lower_laws_names.specs.DeclarationLaws.{InstancesDiffer, TopNamesDiffer, TypesStand, ObjectsAreSame, ControlNamesDiffer, CopiesAreFound};

/// Each new name has at most 64 octets, is no reserved word, and begins as the old one.
pub fn names_are_writable()
    ensures { NamesAreWritable }
{}

/// Header types, objects, tables, actions, the structs of metadata and the copies of actions have names that differ.
pub fn outer_names_differ()
    ensures { OuterNamesDiffer }
{}

/// Two names of one sort have two new names.
pub fn sorts_differ()
    ensures { SortsDiffer }
{}

/// No parser state has a name that the text has by itself.
pub fn states_differ()
    ensures { StatesDiffer }
{}

/// The fields of a type differ, and so do the parameters of an action, which hide nothing that its body names.
pub fn members_differ()
    ensures { MembersDiffer }
{}

/// The variables of an action differ, and hide nothing that its body names.
pub fn variables_differ()
    ensures { VariablesDiffer }
{}

/// The new names of instances differ, and those of the fields of each.
pub fn instances_differ()
    ensures { InstancesDiffer }
{}

/// No name stands twice at the top.
pub fn top_names_differ()
    ensures { TopNamesDiffer }
{}

/// Instances, fields and marks stand in a text as they were written.
pub fn types_stand()
    ensures { TypesStand }
{}

/// The objects of the signatures are the same.
pub fn objects_are_same()
    ensures { ObjectsAreSame }
{}

/// What a control declares for a pipeline has no name twice.
pub fn control_names_differ()
    ensures { ControlNamesDiffer }
{}

/// A table finds each of its actions among the copies of its pipeline.
pub fn copies_are_found()
    ensures { CopiesAreFound }
{}
