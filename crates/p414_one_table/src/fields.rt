// Whether names and numbers are those of a program of the form.
ghost use Rattle.std.specs.Prelude.{◌≡◌, ◌<◌, ◌^◌, ◌&&◌, nat_le, sum_by};
ghost use Rattle.std.specs.List.{list_all, list_any};
ghost use Rattle.std.specs.Str.{bytes_eq};
ghost use Rattle.token_division.specs.Octets.{is_word};
ghost use Rattle.p414_one_table.specs.Programs as programs;

use crate::program::{Field, OneTable14};
use state_store::DROP_PORT;
use token_division::octets::{is_letter, is_word};

fn are_word_octets(octets: &[u8]) -> bool
    ensures { result ≡ list_all is_word octets.now }
{
    octets.iter().all(|octet| is_word(*octet))
}

fn is_id(name: &[u8]) -> bool
    ensures { result ≡ programs.is_id name.now }
{
    match name {
        [] => false,
        [first, others @ ..] => is_letter(*first) && are_word_octets(others),
    }
}

fn has_name(fields: &[Field], name: &[u8]) -> bool
    ensures { result ≡ list_any (λ other. bytes_eq name.now other.name) fields.now }
{
    fields.iter().any(|other| name == other.name.as_slice())
}

fn repeats(fields: &[Field]) -> bool
    ensures { result ≡ programs.repeats fields.now }
{
    let mut left = fields;
    while let [first, others @ ..] = left {
        if has_name(others, first.name.as_slice()) {
            return true;
        }
        left = others;
    }
    false
}

fn is_field(field: &Field) -> bool
    ensures { result ≡ (programs.is_id field.now.name && programs.is_width field.now.width) }
{
    is_id(field.name.as_slice()) && field.width >= 1 && field.width <= 128
}

fn total_width(fields: &[Field]) -> u64
    requires { sum_by (λ f. f.width) fields.now < 2 ^ 64 }
    ensures { result ≡ sum_by (λ f. f.width) fields.now }
{
    fields.iter().map(|field| field.width).sum()
}

fn is_field_count(count: usize) -> bool
    ensures { result ≡ (nat_le 1 count && nat_le count 64) }
{
    count >= 1 && count <= 64
}

fn are_single_fields(fields: &[Field]) -> bool
    ensures { result ≡ list_all (λ f. programs.is_id f.name && programs.is_width f.width) fields.now }
{
    fields.iter().all(|field| is_field(field))
}

fn are_fields(fields: &[Field]) -> bool
    ensures { result ≡ programs.are_fields fields.now }
{
    if !is_field_count(fields.len()) {
        return false;
    }
    if !are_single_fields(fields) {
        return false;
    }
    if repeats(fields) {
        return false;
    }
    total_width(fields) % 8 == 0
}

/// Whether the names and numbers are those of a program of the form.
pub(crate) fn is_one_table(program: &OneTable14) -> bool
    ensures { result ≡ programs.is_one_table program.now }
{
    are_fields(program.fields.as_slice())
        && is_id(program.action.as_slice())
        && program.port <= u64::from(DROP_PORT)
        && is_id(program.table.as_slice())
}
