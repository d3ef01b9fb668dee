// Whether a name stands twice (P4_16 1.2, "Name resolution").
ghost use Rattle.std.specs.Prelude.{◌≡◌, true, false, [], ◌∷◌, ◌++◌, map, IfOk};
ghost use Rattle.std.specs.Bool.{MatchBool};
ghost use Rattle.p416_syntax.specs.Names.{has_name, repeats};

use crate::name_set::NameSet;
use p4x_bits::OutOfMemory;
use std::alloc::Global;

/// Whether a name was seen before; if it wasn't, it is from now on.
fn is_seen<'a>(seen: &mut NameSet<'a>, name: &'a [u8]) -> Result<bool, OutOfMemory>
    ensures { IfOk result (λ twice. MatchBool twice (has_name seen.old name.now ≡ true) ((has_name seen.old name.now ≡ false) × (seen.new ≡ seen.old ++ name.now ∷ []))) }
{
    match seen.add(name)? {
        true => Ok(false),
        false => Ok(true),
    }
}

/// Whether a name stands twice among these. In time linear in the names, but for the look-ups; the one error is want of
/// memory.
#[tactic(auto, using(crate::proofs::Repeating::begun))]
pub fn is_repeated(alloc: Global, names: &[&[u8]]) -> Result<bool, OutOfMemory>
    ensures { IfOk result (λ twice. twice ≡ repeats (map (λ name. name.now) names.now)) }
{
    let mut seen = NameSet::new(alloc);
    for name in names {
        if is_seen(&mut seen, name)? {
            return Ok(true);
        }
    }
    Ok(false)
}
