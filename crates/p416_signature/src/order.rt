// Names in the order of their octets.
ghost use Rattle.std.specs.Prelude.{◌≡◌, map, IfOk, OnOk};
ghost use Rattle.v1_core.specs.Signatures.{in_order};
ghost use Rattle.p416_signature.specs.internal.Gathered.{put_in_order};

use p4x_bits::OutOfMemory;
use std::alloc::Global;
use std::collections::BTreeSet;

/// Puts a name at its place, unless it is there.
#[tactic(auto, using(crate::proofs::Ordered::put_is))]
fn put_name<'a>(set: &mut BTreeSet<&'a [u8]>, name: &'a [u8]) -> Result<(), OutOfMemory>
    ensures { OnOk result (map (λ name. name.now) set.new.keys ≡ put_in_order (map (λ name. name.now) set.old.keys) name.now) }
{
    set.insert(name)?;
    Ok(())
}

/// The names of a set, in order.
fn listed<'a>(alloc: Global, set: BTreeSet<&'a [u8]>) -> Result<Vec<&'a [u8]>, OutOfMemory>
    ensures { IfOk result (λ found. map (λ name. name.now) found.items ≡ map (λ name. name.now) set.entry.keys) }
{
    let mut found = Vec::new(alloc);
    for name in set {
        found.push(name)?;
    }
    Ok(found)
}

/// These names in the order of their octets, each once. The one error is want of memory.
#[tactic(auto, using(crate::proofs::Ordered::put_now))]
pub fn in_order<'a>(alloc: Global, names: &[&'a [u8]]) -> Result<Vec<&'a [u8]>, OutOfMemory>
    ensures { IfOk result (λ found. map (λ name. name.now) found.items ≡ in_order (map (λ name. name.now) names.now)) }
{
    let mut set = BTreeSet::new(alloc);
    for name in names {
        put_name(&mut set, name)?;
    }
    listed(alloc, set)
}
