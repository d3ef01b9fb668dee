// C18 and C19: what resubmit, recirculate and clones preserve.
ghost use Rattle.std.specs.Prelude.{◌≡◌, ◌||◌, map, nat_lt, length, IfOk};
ghost use Rattle.p414_syntax.specs.References.{referred};
ghost use Rattle.p414_syntax.specs.Arguments.{all_invocations};
ghost use Rattle.p414_syntax.specs.Distinct.{distinct};
ghost use Rattle.p414_syntax.specs.Exact.{IsExact};
ghost use Rattle.p414_syntax.specs.Lists.{HoldsItself};
ghost use Rattle.p414_syntax.specs.Preserved.{is_no_metadata_item, is_initialized, PreservesBad, HasBadPreservedList, PreservesInitialized};
ghost use Rattle.p414_preserved_check.specs.internal.Asking.{initial_sets};
ghost use Rattle.p414_preserved_check.specs.internal.Marks.{AreMarks, joins_marked};
ghost use Rattle.p414_preserved_check.specs.internal.Named.{named_by};
ghost use Rattle.p414_preserved_check.specs.declared.named.Wanted.TheVariants.{List as AList};

use crate::asking::{Asked, initial_sets, own_marks};
use crate::marks::{joins_marked, list_marks};
use crate::named::{Wanted, named_once};
use p4x_bits::OutOfMemory;
use p414_names::{NameSet, Names14};
use std::alloc::Global;

/// How many lists are preserved at most.
const MOST_LISTS: usize = 255;

/// For each list whether it comes to anything other than fields of metadata.
fn no_metadata_marks(alloc: Global, names: &Names14<'_>) -> Result<Vec<u64>, OutOfMemory>
    requires { HoldsItself names.now → ⊥ }
    ensures { IfOk result (λ marks. AreMarks names.now (is_no_metadata_item names.now) marks.items) }
{
    let own = own_marks(alloc, names, &[], Asked::NoMetadata)?;
    let marks = list_marks(alloc, names, &own)?;
    Ok(marks)
}

/// For each list whether it comes to a field that has an initial value, given the fields of each instance that have one.
fn initialized_by_sets(
    alloc: Global,
    names: &Names14<'_>,
    sets: &[NameSet<'_>],
) -> Result<Vec<u64>, OutOfMemory>
    requires acyclic { HoldsItself names.now → ⊥ }
    requires sets { sets.now ≡ initial_sets names.now }
    ensures { IfOk result (λ marks. AreMarks names.now (is_initialized names.now) marks.items) }
{
    let own = own_marks(alloc, names, sets, Asked::Initialized)?;
    let marks = list_marks(alloc, names, &own)?;
    Ok(marks)
}

/// For each list whether it comes to a field that has an initial value.
fn initialized_marks(alloc: Global, names: &Names14<'_>) -> Result<Vec<u64>, OutOfMemory>
    requires { HoldsItself names.now → ⊥ }
    ensures { IfOk result (λ marks. AreMarks names.now (is_initialized names.now) marks.items) }
{
    let sets = initial_sets(alloc, names.decls())?;
    initialized_by_sets(alloc, names, &sets)
}

/// Whether these lists are too many, or one of them comes to anything other than fields of metadata.
fn are_bad(alloc: Global, names: &Names14<'_>, preserved: &[&[u8]]) -> Result<bool, OutOfMemory>
    requires acyclic { HoldsItself names.now → ⊥ }
    requires preserved { map referred preserved.now ≡ distinct (named_by AList (all_invocations names.now)) }
    ensures { IfOk result (λ bad. IsExact bad (HasBadPreservedList names.now)) }
{
    if preserved.len() > MOST_LISTS {
        return Ok(true);
    }
    let marks = no_metadata_marks(alloc, names)?;
    Ok(joins_marked(names, &marks, preserved))
}

/// Whether C18 is broken: a list that a call preserves has something other than metadata, or over 255 lists are
/// preserved. No field list may hold itself. In time linear in the program but for looking names up; the one error is
/// want of memory.
pub fn has_bad_preserved_list(alloc: Global, names: &Names14<'_>) -> Result<bool, OutOfMemory>
    requires { HoldsItself names.now → ⊥ }
    ensures { IfOk result (λ bad. IsExact bad (HasBadPreservedList names.now)) }
{
    let preserved = named_once(alloc, names, Wanted::List)?;
    are_bad(alloc, names, &preserved)
}

/// Whether one of these lists comes to a field that has an initial value.
fn are_initialized(
    alloc: Global,
    names: &Names14<'_>,
    preserved: &[&[u8]],
) -> Result<bool, OutOfMemory>
    requires acyclic { HoldsItself names.now → ⊥ }
    requires preserved { map referred preserved.now ≡ distinct (named_by AList (all_invocations names.now)) }
    ensures { IfOk result (λ bad. IsExact bad (PreservesInitialized names.now)) }
{
    let marks = initialized_marks(alloc, names)?;
    Ok(joins_marked(names, &marks, preserved))
}

/// Whether C19 is broken: a field that a call preserves has an initial value. No field list may hold itself. In time
/// linear in the program but for looking names up, where each initial value is that of a field; the one error is want of
/// memory.
pub fn preserves_initialized(alloc: Global, names: &Names14<'_>) -> Result<bool, OutOfMemory>
    requires { HoldsItself names.now → ⊥ }
    ensures { IfOk result (λ bad. IsExact bad (PreservesInitialized names.now)) }
{
    let preserved = named_once(alloc, names, Wanted::List)?;
    are_initialized(alloc, names, &preserved)
}
