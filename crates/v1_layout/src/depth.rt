// How many types a program has.
ghost use Rattle.std.specs.Prelude.{◌≡◌, ◌≤◌, length, IfOk};
ghost use Rattle.p416_syntax.specs.Declarations.{layouts_of};
ghost use Rattle.v1_layout.specs.Left.{type_count, counted};

use p4x_bits::OutOfMemory;
use p416_names::Top;
use p416_syntax::Decl16;

/// How many types a declaration declares.
fn type_count(decl: &Decl16) -> usize
    ensures is { result ≡ type_count decl.now }
    ensures small { result ≤ 1 }
{
    match decl {
        Decl16::Header(_) => 1,
        Decl16::Struct(_) => 1,
        _ => 0,
    }
}

/// How many types declarations declare.
fn count_types(decls: &[Decl16]) -> usize
    ensures { result ≡ counted decls.now }
{
    let mut count = 0usize;
    for decl in decls {
        count += type_count(decl);
    }
    count
}

/// How many types there are: those that are declared, and that of the standard metadata.
#[tactic(auto, using(crate::proofs::Counting::types_counted))]
pub fn depth_of(top: &Top<'_>) -> Result<usize, OutOfMemory>
    ensures { IfOk result (λ depth. depth ≡ length (layouts_of top.now)) }
{
    match count_types(top.decls()).checked_add(1) {
        Some(depth) => Ok(depth),
        None => Err(OutOfMemory),
    }
}
