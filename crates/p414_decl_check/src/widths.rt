// C3: widths of fields, registers and calculations.
ghost use Rattle.std.specs.Prelude.{◌≡◌};
ghost use Rattle.std.specs.List.{list_any};
ghost use Rattle.p414_syntax.specs.Widths.{is_bad_width, is_bad_field, declares_bad_width, has_bad_width};
ghost use Rattle.p414_decl_check.specs.internal.Parts.{is_bad_given};

use p414_syntax::{Decl, Field, FieldWidth, Literal};

/// Whether a width is outside 1 to 128.
fn is_bad_width(width: Literal) -> bool
    ensures { result ≡ is_bad_width width }
{
    width.value < 1 || width.value > 128
}

/// Whether the width of a field is outside 1 to 128. `*` is no number.
fn is_bad_field(field: &Field) -> bool
    ensures { result ≡ is_bad_field field.now }
{
    match field.width {
        FieldWidth::Bits(width) => is_bad_width(width),
        FieldWidth::Rest => false,
    }
}

/// Whether the width of one of these fields is bad.
fn some_bad_field(fields: &[Field]) -> bool
    ensures { result ≡ list_any is_bad_field fields.now }
{
    for field in fields {
        if is_bad_field(field) {
            return true;
        }
    }
    false
}

/// Whether a width is given, and bad.
fn is_bad_given(width: Option<Literal>) -> bool
    ensures { result ≡ is_bad_given width }
{
    match width {
        Some(width) => is_bad_width(width),
        None => false,
    }
}

/// Whether a width in a declaration is bad.
fn declares_bad_width(decl: &Decl) -> bool
    ensures { result ≡ declares_bad_width decl.now }
{
    match decl {
        Decl::HeaderType(declared) => some_bad_field(declared.fields()),
        Decl::Register(declared) => is_bad_given(declared.width()),
        Decl::FieldListCalculation(declared) => is_bad_width(declared.output_width),
        _ => false,
    }
}

/// Whether C3 is broken.
pub fn has_bad_width(decls: &[Decl]) -> bool
    ensures { result ≡ has_bad_width decls.now }
{
    for decl in decls {
        if declares_bad_width(decl) {
            return true;
        }
    }
    false
}
