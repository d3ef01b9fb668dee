// Which names stay.
ghost use Rattle.std.specs.Prelude.{◌≡◌, ◌∷◌, [], codes};
ghost use Rattle.std.specs.List.{list_any};
ghost use Rattle.p414_syntax.specs.Names.{is_declared};
ghost use Rattle.lower_laws_names.specs.Made.{looks_made, can_stay, can_stay_outside};
ghost use Rattle.lower_laws_names.specs.NewNames.{gives_initials, is_displaced, is_declared_before, stays};

use crate::words::{is_outer_word, is_word};
use p414_names::Names14;
use p414_syntax::{Decl, Sort};

/// How many octets a name that stays has at most.
const LONGEST: usize = 64;

/// The state that comes first.
const START: &[u8] = b"start";

/// Whether the name ends in a digit and `_`.
#[tactic(auto, using(lower_laws_names::proofs::Things::short_plain))]
fn looks_made(name: &[u8]) -> bool
    ensures { result ≡ looks_made name.now }
{
    let len = name.len();
    len >= 2 && name[len - 1] == b'_' && name[len - 2].is_ascii_digit()
}

/// Whether a name may stay behind a dot.
pub fn can_stay(name: &[u8]) -> bool
    ensures { result ≡ can_stay name.now }
{
    name.len() <= LONGEST && !looks_made(name) && !is_word(name)
}

/// Whether a name may stay where it stands by itself.
pub fn can_stay_outside(name: &[u8]) -> bool
    ensures { result ≡ can_stay_outside name.now }
{
    can_stay(name) && !is_outer_word(name)
}

/// Whether a sort that keeps a name before this one has the name.
fn is_declared_before(names: &Names14<'_>, sort: Sort, name: &[u8]) -> bool
    ensures { result ≡ is_declared_before names.now sort name.now }
{
    match sort {
        Sort::Object => names.is_declared(Sort::HeaderType, name),
        Sort::Table => {
            names.is_declared(Sort::HeaderType, name) || names.is_declared(Sort::Object, name)
        }
        Sort::Action => {
            names.is_declared(Sort::HeaderType, name)
                || names.is_declared(Sort::Object, name)
                || names.is_declared(Sort::Table, name)
        }
        _ => false,
    }
}

/// Whether a declaration gives initial values of metadata.
fn gives_initials(decl: &Decl) -> bool
    ensures { result ≡ gives_initials decl.now }
{
    match decl {
        Decl::Metadata(declared) => !declared.initial_values().is_empty(),
        _ => false,
    }
}

/// Whether metadata has initial values.
fn some_initials(decls: &[Decl]) -> bool
    ensures { result ≡ list_any gives_initials decls.now }
{
    for decl in decls {
        if gives_initials(decl) {
            return true;
        }
    }
    false
}

/// Whether a state in front of all others takes the name.
fn is_displaced(names: &Names14<'_>, name: &[u8]) -> bool
    ensures { result ≡ is_displaced names.now name.now }
{
    name == START && some_initials(names.decls())
}

/// Whether the name of a sort stays.
pub fn stays(names: &Names14<'_>, sort: Sort, name: &[u8]) -> bool
    ensures { result ≡ stays names.now sort name.now }
{
    match sort {
        Sort::Instance => can_stay(name),
        Sort::Parse => can_stay_outside(name) && !is_displaced(names, name),
        _ => can_stay_outside(name) && !is_declared_before(names, sort, name),
    }
}
