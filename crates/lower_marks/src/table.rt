// The marks of each field, in a table by instance and field.
ghost use Rattle.std.specs.Prelude.{◌≡◌, ◌+◌, ◌-◌, ◌<◌, ℕ, ◌&&◌, [], length, nat_eq, slice_set, OnOk};
ghost use Rattle.lower_marks.specs.FieldMarks.{ends_in, marked_where, marks_at, marks_in, with_mark};

use p4x_bits::{OutOfMemory, Rows};
use std::alloc::Global;
use std::marker::Model;

/// The marks of the fields of an instance. Contracts see the list of them.
#[derive(Drop)]
struct InstanceMarks {
    fields: Vec<Rows<u8>>,
}

impl Model for InstanceMarks {
    ghost use Rattle.std.specs.Prelude.{ℕ, List};

    ghost Value = { List (List ℕ) };

    ghost view = { λ m. m.fields.items };
}

/// The marks of the fields of all instances, both by number. Contracts see the list of the instances.
#[derive(Drop)]
pub struct FieldMarks {
    instances: Vec<InstanceMarks>,
}

impl Model for FieldMarks {
    ghost use Rattle.std.specs.Prelude.{ℕ, List};

    ghost Value = { List (List (List ℕ)) };

    ghost view = { λ m. m.instances.items };
}

/// Whether a mark is the last of these.
fn ends_in(marks: &Rows<u8>, mark: u8) -> bool
    ensures { result ≡ ends_in marks.now mark }
{
    match marks.last() {
        Some(last) => *last == mark,
        None => false,
    }
}

/// Puts a mark last, unless it is the last already.
fn add_mark(marks: &mut Rows<u8>, mark: u8) -> Result<(), OutOfMemory>
    ensures { OnOk result (marks.new ≡ with_mark marks.old mark) }
{
    if ends_in(marks, mark) {
        Ok(())
    } else {
        marks.push(mark)
    }
}

/// How many are missing for one at a place.
fn missing(length: usize, place: u32) -> usize
    ensures { result ≡ (place + 1) - length }
{
    (place as usize + 1).saturating_sub(length)
}

/// Puts fields without marks last until there is one at a place.
#[tactic(auto, using(crate::proofs::Tables::padded_turn, crate::proofs::Tables::padded_kept, crate::proofs::Tables::padded_reaches))]
fn reach_field(alloc: Global, fields: &mut Vec<Rows<u8>>, place: u32) -> Result<(), OutOfMemory>
    ensures reached { OnOk result (place < length fields.new.items) }
    ensures kept { OnOk result ((f : ℕ) → marks_at fields.new.items f ≡ marks_at fields.old.items f) }
{
    for _ in 0..missing(fields.len(), place) {
        fields.push(Rows::new(alloc))?;
    }
    Ok(())
}

/// Puts a mark last of those of a field that is there.
fn mark_there(fields: &mut Vec<Rows<u8>>, field: usize, mark: u8) -> Result<(), OutOfMemory>
    requires { field < length fields.old.items }
    ensures { OnOk result (fields.new.items ≡ slice_set fields.old.items field (with_mark (marks_at fields.old.items field) mark)) }
{
    add_mark(&mut fields[field], mark)
}

impl InstanceMarks {
    /// No fields.
    fn new(alloc: Global) -> Self
        ensures { result ≡ [] }
    {
        InstanceMarks {
            fields: Vec::new(alloc),
        }
    }

    /// Puts a mark last of those of a field.
    #[tactic(auto, using(crate::proofs::Tables::field_marked))]
    fn mark(&mut self, alloc: Global, field: u32, mark: u8) -> Result<(), OutOfMemory>
        ensures { OnOk result ((f : ℕ) → marks_at self.new f ≡ marked_where (nat_eq field f) (marks_at self.old f) mark) }
    {
        reach_field(alloc, &mut self.fields, field)?;
        mark_there(&mut self.fields, field as usize, mark)?;
        Ok(())
    }
}

/// Puts instances without marks last until there is one at a place.
#[tactic(auto, using(crate::proofs::Tables::padded_turn, crate::proofs::Tables::padded_kept, crate::proofs::Tables::padded_reaches))]
fn reach_instance(
    alloc: Global,
    instances: &mut Vec<InstanceMarks>,
    place: u32,
) -> Result<(), OutOfMemory>
    ensures reached { OnOk result (place < length instances.new.items) }
    ensures kept { OnOk result ((k : ℕ) → marks_in instances.new.items k ≡ marks_in instances.old.items k) }
{
    for _ in 0..missing(instances.len(), place) {
        instances.push(InstanceMarks::new(alloc))?;
    }
    Ok(())
}

/// Puts a mark last of those of a field of an instance that is there.
#[tactic(auto, using(crate::proofs::Tables::instance_marked))]
fn mark_in(
    alloc: Global,
    instances: &mut Vec<InstanceMarks>,
    instance: usize,
    field: u32,
    mark: u8,
) -> Result<(), OutOfMemory>
    requires { instance < length instances.old.items }
    ensures { OnOk result ((k f : ℕ) → marks_at (marks_in instances.new.items k) f ≡ marked_where (nat_eq instance k && nat_eq field f) (marks_at (marks_in instances.old.items k) f) mark) }
{
    instances[instance].mark(alloc, field, mark)?;
    Ok(())
}

impl FieldMarks {
    /// No marks.
    pub fn new(alloc: Global) -> Self
        ensures { result ≡ [] }
    {
        FieldMarks {
            instances: Vec::new(alloc),
        }
    }

    /// Puts a mark last of those of a field of an instance, unless it is the last already.
    #[tactic(auto, using(crate::proofs::Tables::marked_behind))]
    pub fn mark(
        &mut self,
        alloc: Global,
        instance: u32,
        field: u32,
        mark: u8,
    ) -> Result<(), OutOfMemory>
        ensures { OnOk result ((k f : ℕ) → marks_at (marks_in self.new k) f ≡ marked_where (nat_eq instance k && nat_eq field f) (marks_at (marks_in self.old k) f) mark) }
    {
        reach_instance(alloc, &mut self.instances, instance)?;
        mark_in(alloc, &mut self.instances, instance as usize, field, mark)?;
        Ok(())
    }

    /// The marks of the fields of an instance, from the first field on; of fields past these there are none.
    pub fn of_instance(&self, instance: u32) -> &[Rows<u8>]
        ensures { result.now ≡ marks_in self.now instance }
    {
        match self.instances.get(instance as usize) {
            Some(found) => &found.fields,
            None => &[],
        }
    }
}
