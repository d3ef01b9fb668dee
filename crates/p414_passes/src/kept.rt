// What is preserved of metadata.
ghost use Rattle.std.specs.Prelude.{◌≡◌, ◌<◌, ◌≤◌, fold, length, map, replicate, slice_set, IfOk, MatchBool};
ghost use Rattle.p414_sem.specs.Slots.{declared};
ghost use Rattle.p414_sem.specs.State.{read};
ghost use Rattle.p414_passes.specs.Kept.{FitsKept, kept_at, kept_by, keeping_row, nothing_kept, nothing_of};

use p4x_bits::OutOfMemory;
use p414_field_lists::{FieldLists, ItemRow};
use p414_layout::Shape;
use p414_slots::FieldSlot;
use p414_state::State14;
use std::alloc::Global;
use std::marker::Model;

/// The numbers that are preserved of an instance. Contracts see the list of them.
#[derive(Drop)]
pub struct KeptNumbers {
    numbers: Vec<u128>,
}

impl Model for KeptNumbers {
    ghost use Rattle.std.specs.Prelude.{List, ℕ};

    ghost Value = { List ℕ };

    ghost view = { λ k. k.numbers.items };
}

impl KeptNumbers {
    /// So many numbers, all 0. The one error is want of memory.
    fn zeros(alloc: Global, count: usize) -> Result<KeptNumbers, OutOfMemory>
        ensures { IfOk result (λ kept. kept ≡ replicate count 0) }
    {
        Ok(KeptNumbers {
            numbers: vec![in alloc; 0u128; count]?,
        })
    }

    /// The numbers in order.
    pub fn as_slice(&self) -> &[u128]
        ensures { result.now ≡ self.now }
    {
        &self.numbers
    }

    /// Whether there is such a field.
    fn has(&self, field: u32) -> bool
        ensures { MatchBool result (field < length self.now) (length self.now ≤ field) }
    {
        (field as usize) < self.numbers.len()
    }

    /// Puts the number of a field; nothing where there is no such field.
    fn put(&mut self, field: u32, value: u128)
        ensures { self.new ≡ slice_set self.old field value }
    {
        if self.has(field) {
            self.numbers[field as usize] = value;
        }
    }
}

/// What is preserved of a packet's metadata from one pass to the next: for each instance, in the order of declaration, a number
/// for each field of metadata, and none for a header (P4_14 1.0.5, "Clone", "Resubmit", "Recirculate"). Contracts see the lists.
#[derive(Drop)]
pub struct Kept14 {
    sets: Vec<KeptNumbers>,
}

impl Model for Kept14 {
    ghost use Rattle.p414_sem.specs.Passes.{Preserved};

    ghost Value = { Preserved };

    ghost view = { λ k. k.sets.items };
}

/// The numbers of an instance of which nothing is preserved.
fn nothing_of(alloc: Global, shape: &Shape) -> Result<KeptNumbers, OutOfMemory>
    ensures { IfOk result (λ kept. kept ≡ nothing_of shape.now) }
{
    if shape.metadata {
        KeptNumbers::zeros(alloc, shape.widths.len())
    } else {
        KeptNumbers::zeros(alloc, 0)
    }
}

/// The same of all instances.
fn blank_sets(alloc: Global, shapes: &[Shape]) -> Result<Vec<KeptNumbers>, OutOfMemory>
    ensures { IfOk result (λ sets. sets.items ≡ map nothing_of shapes.now) }
{
    let mut sets = Vec::with_capacity(alloc, shapes.len())?;
    for shape in shapes {
        sets.push(nothing_of(alloc, shape)?)?;
    }
    Ok(sets)
}

impl Kept14 {
    /// Nothing, so all fields of metadata are 0. The one error is want of memory.
    #[tactic(auto, using(crate::proofs::Keeping::nothing_fits))]
    pub fn nothing(alloc: Global, shapes: &[Shape]) -> Result<Kept14, OutOfMemory>
        ensures is { IfOk result (λ kept. kept ≡ nothing_kept shapes.now) }
        ensures fits { IfOk result (FitsKept shapes.now) }
    {
        Ok(Kept14 {
            sets: blank_sets(alloc, shapes)?,
        })
    }

    /// The numbers of all instances, in order.
    pub fn sets(&self) -> &[KeptNumbers]
        ensures { result.now ≡ self.now }
    {
        &self.sets
    }

    /// Whether there is such an instance.
    fn has(&self, instance: u32) -> bool
        ensures { MatchBool result (instance < length self.now) (length self.now ≤ instance) }
    {
        (instance as usize) < self.sets.len()
    }

    /// Puts the number of a field; nothing where there is no such field.
    fn put(&mut self, instance: u32, field: u32, value: u128)
        ensures { self.new ≡ kept_at self.old instance field value }
    {
        if self.has(instance) {
            self.sets[instance as usize].put(field, value);
        }
    }

    /// Preserves a field of an instance as it stands.
    #[tactic(auto, using(crate::proofs::Keeping::put_fits))]
    fn keep_field(&mut self, state: &State14, instance: u32, element: u32, field: u32)
        ensures is { self.new ≡ kept_at self.old instance field (read state.now.state (declared instance element field)) }
        ensures fits { FitsKept state.now.layout self.old → FitsKept state.now.layout self.new }
    {
        let value = state.number(instance, element, field);
        self.put(instance, field, value);
    }

    /// Preserves what an item of a field list is, if it is a field of an instance.
    fn keep_row(&mut self, state: &State14, row: ItemRow)
        ensures is { self.new ≡ keeping_row state.now.state self.old row }
        ensures fits { FitsKept state.now.layout self.old → FitsKept state.now.layout self.new }
    {
        match row {
            ItemRow::Field { slot, .. } => match slot {
                FieldSlot::Declared {
                    instance,
                    element,
                    field,
                } => self.keep_field(state, instance, element, field),
                FieldSlot::Standard(_) => {}
            },
            ItemRow::Payload | ItemRow::Number { .. } => {}
        }
    }

    /// Preserves the fields of a field list.
    #[tactic(auto, using(crate::proofs::Keeping::next_kept))]
    fn keep_rows(&mut self, state: &State14, rows: &[ItemRow])
        ensures is { self.new ≡ fold (keeping_row state.now.state) self.old rows.now }
        ensures fits { FitsKept state.now.layout self.old → FitsKept state.now.layout self.new }
    {
        for row in rows {
            self.keep_row(state, *row);
        }
    }

    /// What a request with this list preserves of a packet whose instances are laid out so: the fields of the list as they stand,
    /// and nothing where there is no list. The one error is want of memory.
    #[tactic(auto, using(crate::proofs::Keeping::list_fits))]
    pub fn of_list(
        alloc: Global,
        shapes: &[Shape],
        lists: &FieldLists,
        list: Option<u32>,
        state: &State14,
    ) -> Result<Kept14, OutOfMemory>
        requires { shapes.now ≡ state.now.layout }
        ensures is { IfOk result (λ kept. kept ≡ kept_by shapes.now lists.now state.now.state list) }
        ensures fits { IfOk result (FitsKept shapes.now) }
    {
        let mut kept = Kept14::nothing(alloc, shapes)?;
        match list {
            Some(list) => {
                kept.keep_rows(state, lists.rows(list));
                Ok(kept)
            }
            None => Ok(kept),
        }
    }
}
