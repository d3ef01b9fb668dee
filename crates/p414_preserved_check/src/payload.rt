// C20: where `payload` stands.
ghost use Rattle.std.specs.Prelude.{◌≡◌, ◌||◌, not, ◌&&◌, false, map, option_to_list, IfOk};
ghost use Rattle.std.specs.List.{list_any};
ghost use Rattle.p414_syntax.specs.References.{referred};
ghost use Rattle.p414_syntax.specs.Arguments.{all_invocations};
ghost use Rattle.p414_syntax.specs.Distinct.{distinct};
ghost use Rattle.p414_syntax.specs.Exact.{IsExact};
ghost use Rattle.p414_syntax.specs.Expansion.{lists, list_in};
ghost use Rattle.p414_syntax.specs.Lists.{HoldsItself};
ghost use Rattle.p414_syntax.specs.Payloads.{is_payload, input_in, inputs, HasBadPayload};
ghost use Rattle.p414_preserved_check.specs.internal.Asking.{is_anything, fills_by};
ghost use Rattle.p414_preserved_check.specs.internal.Marks.{AreMarks, is_missing, is_marked_name};
ghost use Rattle.p414_preserved_check.specs.internal.Early.{item_comes, early_items, is_early, some_early, early_names, is_early_input};
ghost use Rattle.p414_preserved_check.specs.internal.Named.{inputs_of, some_input_missing, some_input_marked, inputs_marked, named_by};
ghost use Rattle.p414_preserved_check.specs.declared.named.Wanted.TheVariants.{Calculation};

use crate::asking::{Asked, fills_by, is_payload, own_marks};
use crate::marks::{is_marked, is_marked_name, is_missing, list_marks};
use crate::named::{Wanted, named_once};
use p4x_bits::{OutOfMemory, Text};
use p414_list_check::{calculation_of, inner_number};
use p414_names::Names14;
use p414_syntax::{Decl, Item};
use std::alloc::Global;

/// Whether what an item comes to has `payload`, given which lists come to it.
fn item_pays(names: &Names14<'_>, pays: &[u64], item: &Item) -> bool
    ensures { result ≡ item_comes names.now is_payload pays.now item.now }
{
    match inner_number(names, item) {
        Some(list) => is_marked(pays, list),
        None => is_payload(item),
    }
}

/// Whether an item comes to anything, given which lists do.
fn item_fills(names: &Names14<'_>, fills: &[u64], item: &Item) -> bool
    ensures { result ≡ item_comes names.now (fills_by names.now) fills.now item.now }
{
    match inner_number(names, item) {
        Some(list) => is_marked(fills, list),
        None => fills_by(names, item),
    }
}

/// Whether both are so.
fn are_both(first: bool, second: bool) -> bool
    ensures { result ≡ (first && second) }
{
    first && second
}

/// Whether one of the two is so.
fn is_either(first: bool, second: bool) -> bool
    ensures { result ≡ (first || second) }
{
    first || second
}

/// Whether among these items, by themselves, `payload` stands in front of another item.
#[tactic(auto, using(crate::proofs::Loops::early_next))]
fn early_items(names: &Names14<'_>, pays: &[u64], fills: &[u64], items: &[Item]) -> bool
    ensures { result ≡ early_items names.now pays.now fills.now false items.now }
{
    let mut paid = false;
    for item in items {
        if are_both(paid, item_fills(names, fills, item)) {
            return true;
        }
        paid = is_either(paid, item_pays(names, pays, item));
    }
    false
}

/// Whether a declaration is a list where that is so.
fn declares_early(names: &Names14<'_>, pays: &[u64], fills: &[u64], decl: &Decl) -> bool
    ensures { result ≡ list_any (is_early names.now pays.now fills.now) (option_to_list (list_in decl.now)) }
{
    match decl {
        Decl::FieldList(declared) => early_items(names, pays, fills, declared.items.as_slice()),
        _ => false,
    }
}

/// Whether that is so of a declared list.
#[tactic(auto, using(crate::proofs::Loops::any_list))]
fn some_early(names: &Names14<'_>, pays: &[u64], fills: &[u64], decls: &[Decl]) -> bool
    ensures { result ≡ list_any (is_early names.now pays.now fills.now) (lists decls.now) }
{
    for decl in decls {
        if declares_early(names, pays, fills, decl) {
            return true;
        }
    }
    false
}

/// Whether no list has one of these names.
#[tactic(auto, using(crate::proofs::Loops::any_next))]
fn some_missing(names: &Names14<'_>, input: &[Text]) -> bool
    ensures { result ≡ list_any (is_missing names.now) input.now }
{
    for name in input {
        if is_missing(names, name.as_slice()) {
            return true;
        }
    }
    false
}

/// Whether a list with one of these names is marked.
#[tactic(auto, using(crate::proofs::Loops::any_next))]
fn some_marked(names: &Names14<'_>, marks: &[u64], input: &[Text]) -> bool
    ensures { result ≡ list_any (is_marked_name names.now marks.now) input.now }
{
    for name in input {
        if is_marked_name(names, marks, name.as_slice()) {
            return true;
        }
    }
    false
}

/// Whether in these lists, joined, `payload` in one stands in front of an item of a later one.
#[tactic(auto, using(crate::proofs::Loops::early_next))]
fn early_names(names: &Names14<'_>, pays: &[u64], fills: &[u64], input: &[Text]) -> bool
    ensures { result ≡ early_names names.now pays.now fills.now false input.now }
{
    let mut paid = false;
    for name in input {
        if are_both(paid, is_marked_name(names, fills, name.as_slice())) {
            return true;
        }
        paid = is_either(paid, is_marked_name(names, pays, name.as_slice()));
    }
    false
}

/// The same, where lists have all these names.
fn is_early_input(names: &Names14<'_>, pays: &[u64], fills: &[u64], input: &[Text]) -> bool
    ensures { result ≡ is_early_input names.now pays.now fills.now input.now }
{
    !some_missing(names, input) && early_names(names, pays, fills, input)
}

/// Whether a declaration is a calculation where that is so.
fn has_early_input(names: &Names14<'_>, pays: &[u64], fills: &[u64], decl: &Decl) -> bool
    ensures { result ≡ list_any (is_early_input names.now pays.now fills.now) (input_in decl.now) }
{
    match decl {
        Decl::FieldListCalculation(declared) => {
            is_early_input(names, pays, fills, declared.input.as_slice())
        }
        _ => false,
    }
}

/// Whether that is so of a declared calculation.
#[tactic(auto, using(crate::proofs::Loops::any_input))]
fn some_early_input(names: &Names14<'_>, pays: &[u64], fills: &[u64], decls: &[Decl]) -> bool
    ensures { result ≡ list_any (is_early_input names.now pays.now fills.now) (inputs decls.now) }
{
    for decl in decls {
        if has_early_input(names, pays, fills, decl) {
            return true;
        }
    }
    false
}

/// Whether no list has a name that a calculation takes.
fn some_input_missing(names: &Names14<'_>, calculation: &[u8]) -> bool
    ensures { result ≡ some_input_missing names.now calculation.now }
{
    match calculation_of(names, calculation) {
        Some(declared) => some_missing(names, declared.input.as_slice()),
        None => false,
    }
}

/// Whether a list that a calculation takes is marked.
fn some_input_marked(names: &Names14<'_>, marks: &[u64], calculation: &[u8]) -> bool
    ensures { result ≡ some_input_marked names.now marks.now calculation.now }
{
    match calculation_of(names, calculation) {
        Some(declared) => some_marked(names, marks, declared.input.as_slice()),
        None => false,
    }
}

/// Whether that is so of one of these calculations.
fn any_missing(names: &Names14<'_>, calculations: &[&[u8]]) -> bool
    ensures { result ≡ list_any (some_input_missing names.now) (map referred calculations.now) }
{
    for calculation in calculations {
        if some_input_missing(names, *calculation) {
            return true;
        }
    }
    false
}

/// Whether a list that one of these calculations takes is marked.
fn any_marked(names: &Names14<'_>, marks: &[u64], calculations: &[&[u8]]) -> bool
    ensures { result ≡ list_any (some_input_marked names.now marks.now) (map referred calculations.now) }
{
    for calculation in calculations {
        if some_input_marked(names, marks, *calculation) {
            return true;
        }
    }
    false
}

/// Whether lists have all names that these calculations take, and one of them is marked.
fn inputs_marked(names: &Names14<'_>, marks: &[u64], calculations: &[&[u8]]) -> bool
    ensures { result ≡ inputs_marked names.now marks.now (map referred calculations.now) }
{
    !any_missing(names, calculations) && any_marked(names, marks, calculations)
}

/// Whether `payload` stands early in a list or in the input of a calculation, or is in one that a hash goes by.
fn stands_badly(names: &Names14<'_>, pays: &[u64], fills: &[u64], hashed: &[&[u8]]) -> bool
    ensures { result ≡ (some_early names.now pays.now fills.now || (list_any (is_early_input names.now pays.now fills.now) (inputs names.now) || inputs_marked names.now pays.now (map referred hashed.now))) }
{
    some_early(names, pays, fills, names.decls())
        || (some_early_input(names, pays, fills, names.decls())
            || inputs_marked(names, pays, hashed))
}

/// Whether C20 is broken, given which lists come to `payload`, which to anything, and by which calculations hashes go.
fn is_payload_bad(names: &Names14<'_>, pays: &[u64], fills: &[u64], hashed: &[&[u8]]) -> bool
    requires pays { AreMarks names.now is_payload pays.now }
    requires fills { AreMarks names.now is_anything fills.now }
    requires hashed { map referred hashed.now ≡ distinct (named_by Calculation (all_invocations names.now)) }
    ensures { IsExact result (HasBadPayload names.now) }
{
    stands_badly(names, pays, fills, hashed)
}

/// For each list whether it comes to `payload`.
fn payload_marks(alloc: Global, names: &Names14<'_>) -> Result<Vec<u64>, OutOfMemory>
    requires { HoldsItself names.now → ⊥ }
    ensures { IfOk result (λ marks. AreMarks names.now is_payload marks.items) }
{
    let own = own_marks(alloc, names, &[], Asked::Payload)?;
    let marks = list_marks(alloc, names, &own)?;
    Ok(marks)
}

/// For each list whether it comes to anything.
fn filled_marks(alloc: Global, names: &Names14<'_>) -> Result<Vec<u64>, OutOfMemory>
    requires { HoldsItself names.now → ⊥ }
    ensures { IfOk result (λ marks. AreMarks names.now is_anything marks.items) }
{
    let own = own_marks(alloc, names, &[], Asked::Anything)?;
    let marks = list_marks(alloc, names, &own)?;
    Ok(marks)
}

/// Whether C20 is broken: `payload` isn't last in an expanded list, or is in a list that a hash is over. No field list
/// may hold itself. In time linear in the program but for looking names up; the one error is want of memory.
pub fn has_bad_payload(alloc: Global, names: &Names14<'_>) -> Result<bool, OutOfMemory>
    requires { HoldsItself names.now → ⊥ }
    ensures { IfOk result (λ bad. IsExact bad (HasBadPayload names.now)) }
{
    let pays = payload_marks(alloc, names)?;
    let fills = filled_marks(alloc, names)?;
    let hashed = named_once(alloc, names, Wanted::Calculation)?;
    Ok(is_payload_bad(names, &pays, &fills, &hashed))
}
