// A node with the names that it leads to.
ghost use Rattle.std.specs.Prelude.{◌≡◌, ◌++◌, [], ◌∷◌, map, OnOk};

use p4x_bits::OutOfMemory;
use std::alloc::Global;
use std::marker::Model;

/// A node by its name, with the names of those that it leads to. Contracts see both.
#[derive(Drop)]
pub struct NameNode<'s> {
    name: &'s [u8],
    targets: Vec<&'s [u8]>,
}

impl<'s> Model for NameNode<'s> {
    ghost use Rattle.std.specs.Prelude.{map};
    ghost use Rattle.name_cycles.specs.Named.{NamedNode};

    ghost Value = { NamedNode };

    ghost view = { λ n. record { called = n.name.now; leads_to = map (λ target. target.now) n.targets.items } };
}

impl<'s> NameNode<'s> {
    /// A node that leads nowhere. It takes no memory.
    pub fn new(alloc: Global, name: &'s [u8]) -> Self
        ensures { result ≡ record { called = name.now; leads_to = [] } }
    {
        NameNode {
            name,
            targets: Vec::new(alloc),
        }
    }

    /// Leads to one more name, behind the others.
    pub fn lead_to(&mut self, name: &'s [u8]) -> Result<(), OutOfMemory>
        ensures { OnOk result (self.new ≡ record self.old { leads_to = self.old.leads_to ++ name.now ∷ [] }) }
    {
        self.targets.push(name)?;
        Ok(())
    }

    /// The name.
    pub fn name(&self) -> &'s [u8]
        ensures { result.now ≡ self.now.called }
    {
        self.name
    }

    /// The names that the node leads to, in order.
    pub fn targets(&self) -> &[&'s [u8]]
        ensures { map (λ target. target.now) result.now ≡ self.now.leads_to }
    {
        &self.targets
    }
}
