// The parts that the primitives of an action changed.
ghost use Rattle.std.specs.Prelude.{◌≡◌, ℕ, ◌||◌, OnOk, false};
ghost use Rattle.p414_sem.specs.Slots.{standard, declared};
ghost use Rattle.lower_laws_actions.specs.Apart.{Part, number_of, form_of, whole_of, elements_of, cells_of, standard_place, is_written, is_replaced, is_moved, is_stored};
ghost use Rattle.lower_bodies.specs.Changed.{is_kept, at};

use p414_sem::Standard;
use std::alloc::{AllocError, Global};
use std::collections::BTreeSet;

/// The parts that primitives changed: each part is looked up in at most three sets. Contracts see them by `is_kept`.
#[derive(Drop)]
pub struct ChangedParts {
    /// The fields of `standard_metadata` that were written, by their places.
    pub standard: BTreeSet<u32>,
    /// The fields that were written: instance, element and field.
    pub fields: BTreeSet<(u32, u32, u32)>,
    /// The headers of these fields.
    pub written_headers: BTreeSet<(u32, u32)>,
    /// The instances of these fields.
    pub written_instances: BTreeSet<u32>,
    /// The headers in whose place another one stands: instance and element.
    pub headers: BTreeSet<(u32, u32)>,
    /// The instances of these headers.
    pub instances: BTreeSet<u32>,
    /// The stacks whose elements moved.
    pub stacks: BTreeSet<u32>,
    /// The registers that were written.
    pub registers: BTreeSet<u32>,
}

/// The place of a field of `standard_metadata`.
fn place_of(which: Standard) -> u32
    ensures { result ≡ standard_place which }
{
    match which {
        Standard::IngressPort => 0,
        Standard::EgressSpec => 1,
        Standard::EgressPort => 2,
        Standard::PacketLength => 3,
        Standard::InstanceType => 4,
    }
}

impl ChangedParts {
    /// None.
    pub fn new(alloc: Global) -> ChangedParts
        ensures { (x : Part) → is_kept result x ≡ false }
    {
        ChangedParts {
            standard: BTreeSet::new(alloc),
            fields: BTreeSet::new(alloc),
            written_headers: BTreeSet::new(alloc),
            written_instances: BTreeSet::new(alloc),
            headers: BTreeSet::new(alloc),
            instances: BTreeSet::new(alloc),
            stacks: BTreeSet::new(alloc),
            registers: BTreeSet::new(alloc),
        }
    }

    /// A field of `standard_metadata` is written. The one error is want of memory.
    pub fn write_standard(&mut self, which: Standard) -> Result<(), AllocError>
        ensures { OnOk result ((x : Part) → is_kept self.new x ≡ (is_kept self.old x || is_written (standard which) x)) }
    {
        self.standard.insert(place_of(which))?;
        Ok(())
    }

    /// A field of a header, of an element of a stack or of metadata is written. The one error is want of memory.
    pub fn write_field(&mut self, instance: u32, element: u32, field: u32) -> Result<(), AllocError>
        ensures { OnOk result ((x : Part) → is_kept self.new x ≡ (is_kept self.old x || is_written (declared instance element field) x)) }
    {
        self.fields.insert((instance, element, field))?;
        self.written_headers.insert((instance, element))?;
        self.written_instances.insert(instance)?;
        Ok(())
    }

    /// Another header stands in the place of this one. The one error is want of memory.
    pub fn replace(&mut self, instance: u32, element: u32) -> Result<(), AllocError>
        ensures { OnOk result ((x : Part) → is_kept self.new x ≡ (is_kept self.old x || is_replaced (at instance element) x)) }
    {
        self.headers.insert((instance, element))?;
        self.instances.insert(instance)?;
        Ok(())
    }

    /// The elements of a stack move. The one error is want of memory.
    pub fn shift(&mut self, stack: u32) -> Result<(), AllocError>
        ensures { OnOk result ((x : Part) → is_kept self.new x ≡ (is_kept self.old x || is_moved stack x)) }
    {
        self.stacks.insert(stack)?;
        Ok(())
    }

    /// A cell of a register is written. The one error is want of memory.
    pub fn store(&mut self, register: u32) -> Result<(), AllocError>
        ensures { OnOk result ((x : Part) → is_kept self.new x ≡ (is_kept self.old x || is_stored register x)) }
    {
        self.registers.insert(register)?;
        Ok(())
    }

    /// Whether the number of a field of `standard_metadata` was changed.
    pub fn has_standard(&self, which: Standard) -> bool
        ensures { result ≡ is_kept self.now (number_of (standard which)) }
    {
        self.standard.contains(&place_of(which))
    }

    /// Whether the number of a field was changed.
    pub fn has_field(&self, instance: u32, element: u32, field: u32) -> bool
        ensures { result ≡ is_kept self.now (number_of (declared instance element field)) }
    {
        self.fields.contains(&(instance, element, field)) || self.has_form(instance, element)
    }

    /// Whether the validity of a header was changed.
    pub fn has_form(&self, instance: u32, element: u32) -> bool
        ensures { result ≡ is_kept self.now (form_of (at instance element)) }
    {
        self.headers.contains(&(instance, element)) || self.stacks.contains(&instance)
    }

    /// Whether anything of a header was changed.
    pub fn has_header(&self, instance: u32, element: u32) -> bool
        ensures { result ≡ is_kept self.now (whole_of (at instance element)) }
    {
        self.written_headers.contains(&(instance, element)) || self.has_form(instance, element)
    }

    /// Whether anything of a stack was changed.
    pub fn has_stack(&self, stack: u32) -> bool
        ensures { result ≡ is_kept self.now (elements_of stack) }
    {
        self.written_instances.contains(&stack)
            || self.instances.contains(&stack)
            || self.stacks.contains(&stack)
    }

    /// Whether a register was written.
    pub fn has_register(&self, register: u32) -> bool
        ensures { result ≡ is_kept self.now (cells_of register) }
    {
        self.registers.contains(&register)
    }
}
