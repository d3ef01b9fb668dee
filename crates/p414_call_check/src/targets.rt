// C14 and C25: what is extracted, and what is written.
ghost use Rattle.std.specs.Prelude.{◌≡◌, map, option_copied, option_to_list};
ghost use Rattle.std.specs.List.{list_any};
ghost use Rattle.p414_syntax.specs.Arguments.{placed_arguments};
ghost use Rattle.p414_syntax.specs.Targets.{target_of, is_metadata, is_no_header, is_no_metadata_field, is_read_only, extracts, parser_targets, has_bad_target};
ghost use Rattle.p414_syntax.specs.Unsupported.{is_group_field, writes_group};
ghost use Rattle.p414_call_check.specs.Shown.{shown_placed};
ghost use Rattle.p414_call_check.specs.internal.Written.{extracts_no_header, state_extracts_no_header, sets_no_metadata, state_sets_no_metadata, sets_group, state_sets_group, target_is_read_only, target_is_group};

use crate::placed::PlacedArgument;
use p414_calls::Argument;
use p414_names::{Names14, is_standard};
use p414_syntax::{ArgumentPlace, Decl, PStmt, Ref, Sort};

const EGRESS_SPEC: &[u8] = b"egress_spec";

const INTRINSIC_METADATA: &[u8] = b"intrinsic_metadata";

const MCAST_GRP: &[u8] = b"mcast_grp";

/// Whether an instance is metadata that the program declares.
fn is_metadata(names: &Names14<'_>, name: &[u8]) -> bool
    ensures { result ≡ is_metadata names.now name.now }
{
    match names.declaration_of(Sort::Instance, name) {
        Some(Decl::Metadata(_)) => true,
        _ => false,
    }
}

/// Whether a field is one of standard metadata that isn't written.
fn is_read_only(field: &Ref) -> bool
    ensures { result ≡ is_read_only field.now }
{
    is_standard(field.instance.name.as_slice()) && field.field.as_slice() != EGRESS_SPEC
}

/// Whether a field is the one of groups.
fn is_group_field(field: &Ref) -> bool
    ensures { result ≡ is_group_field field.now }
{
    field.instance.name.as_slice() == INTRINSIC_METADATA && field.field.as_slice() == MCAST_GRP
}

/// Whether a statement extracts what isn't a header.
fn extracts_no_header(names: &Names14<'_>, statement: &PStmt) -> bool
    ensures { result ≡ extracts_no_header names.now statement.now }
{
    match statement {
        PStmt::Extract(instance) => !names.is_header(instance.name.as_slice()),
        PStmt::SetMetadata(_, _) => false,
    }
}

/// Whether one of these statements does.
fn some_extract_no_header(names: &Names14<'_>, statements: &[PStmt]) -> bool
    ensures { result ≡ list_any (extracts_no_header names.now) statements.now }
{
    for statement in statements {
        if extracts_no_header(names, statement) {
            return true;
        }
    }
    false
}

/// Whether a statement of a parser state does.
fn state_extracts_no_header(names: &Names14<'_>, decl: &Decl) -> bool
    ensures { result ≡ state_extracts_no_header names.now decl.now }
{
    match decl {
        Decl::Parser(declared) => some_extract_no_header(names, declared.statements.as_slice()),
        _ => false,
    }
}

/// Whether something that isn't a header is extracted.
#[tactic(auto, using(crate::proofs::Writing::any_extract))]
fn some_state_extracts_no_header(names: &Names14<'_>) -> bool
    ensures { result ≡ list_any (is_no_header names.now) (extracts names.now) }
{
    for decl in names.decls() {
        if state_extracts_no_header(names, decl) {
            return true;
        }
    }
    false
}

/// Whether a statement writes a field that isn't one of the program's metadata.
fn sets_no_metadata(names: &Names14<'_>, statement: &PStmt) -> bool
    ensures { result ≡ sets_no_metadata names.now statement.now }
{
    match statement {
        PStmt::Extract(_) => false,
        PStmt::SetMetadata(field, _) => !is_metadata(names, field.instance.name.as_slice()),
    }
}

/// Whether one of these statements does.
fn some_set_no_metadata(names: &Names14<'_>, statements: &[PStmt]) -> bool
    ensures { result ≡ list_any (sets_no_metadata names.now) statements.now }
{
    for statement in statements {
        if sets_no_metadata(names, statement) {
            return true;
        }
    }
    false
}

/// Whether a statement of a parser state does.
fn state_sets_no_metadata(names: &Names14<'_>, decl: &Decl) -> bool
    ensures { result ≡ state_sets_no_metadata names.now decl.now }
{
    match decl {
        Decl::Parser(declared) => some_set_no_metadata(names, declared.statements.as_slice()),
        _ => false,
    }
}

/// Whether a parser state writes a field that isn't one of the program's metadata.
#[tactic(auto, using(crate::proofs::Writing::any_set))]
fn some_state_sets_no_metadata(names: &Names14<'_>) -> bool
    ensures { result ≡ list_any (is_no_metadata_field names.now) (parser_targets names.now) }
{
    for decl in names.decls() {
        if state_sets_no_metadata(names, decl) {
            return true;
        }
    }
    false
}

/// Whether a statement writes the field of groups.
fn sets_group(statement: &PStmt) -> bool
    ensures { result ≡ sets_group statement.now }
{
    match statement {
        PStmt::Extract(_) => false,
        PStmt::SetMetadata(field, _) => is_group_field(field),
    }
}

/// Whether one of these statements does.
fn some_set_group(statements: &[PStmt]) -> bool
    ensures { result ≡ list_any sets_group statements.now }
{
    for statement in statements {
        if sets_group(statement) {
            return true;
        }
    }
    false
}

/// Whether a statement of a parser state does.
fn state_sets_group(decl: &Decl) -> bool
    ensures { result ≡ state_sets_group decl.now }
{
    match decl {
        Decl::Parser(declared) => some_set_group(declared.statements.as_slice()),
        _ => false,
    }
}

/// Whether a parser state writes the field of groups.
#[tactic(auto, using(crate::proofs::Writing::any_group))]
fn some_state_sets_group(decls: &[Decl]) -> bool
    ensures { result ≡ list_any is_group_field (parser_targets decls.now) }
{
    for decl in decls {
        if state_sets_group(decl) {
            return true;
        }
    }
    false
}

/// The field that an argument writes, if it does.
fn target_of<'a>(placed: &PlacedArgument<'a>) -> Option<&'a Ref>
    ensures { option_to_list (option_copied result) ≡ target_of (shown_placed placed.now) }
{
    match (placed.wanted, placed.argument) {
        (ArgumentPlace::Target, Argument::Field(field)) => Some(field),
        _ => None,
    }
}

/// Whether an argument writes a field of standard metadata that isn't written.
fn target_is_read_only(placed: &PlacedArgument<'_>) -> bool
    ensures { result ≡ target_is_read_only (shown_placed placed.now) }
{
    match target_of(placed) {
        Some(field) => is_read_only(field),
        None => false,
    }
}

/// Whether one of these arguments does.
fn some_target_is_read_only(placed: &[PlacedArgument<'_>]) -> bool
    ensures { result ≡ list_any target_is_read_only (map shown_placed placed.now) }
{
    for argument in placed {
        if target_is_read_only(argument) {
            return true;
        }
    }
    false
}

/// Whether an argument writes the field of groups.
fn target_is_group(placed: &PlacedArgument<'_>) -> bool
    ensures { result ≡ target_is_group (shown_placed placed.now) }
{
    match target_of(placed) {
        Some(field) => is_group_field(field),
        None => false,
    }
}

/// Whether one of these arguments does.
fn some_target_is_group(placed: &[PlacedArgument<'_>]) -> bool
    ensures { result ≡ list_any target_is_group (map shown_placed placed.now) }
{
    for argument in placed {
        if target_is_group(argument) {
            return true;
        }
    }
    false
}

/// Whether something that isn't a header is extracted, or a field is written that isn't writable (C14).
#[tactic(auto, using(crate::proofs::Writing::any_read_only))]
pub fn has_bad_target(names: &Names14<'_>, placed: &[PlacedArgument<'_>]) -> bool
    requires { map shown_placed placed.now ≡ placed_arguments names.now }
    ensures { result ≡ has_bad_target names.now }
{
    some_state_extracts_no_header(names)
        || (some_state_sets_no_metadata(names) || some_target_is_read_only(placed))
}

/// Whether `intrinsic_metadata.mcast_grp` is written (C25).
#[tactic(auto, using(crate::proofs::Writing::any_group_target))]
pub fn writes_group(names: &Names14<'_>, placed: &[PlacedArgument<'_>]) -> bool
    requires { map shown_placed placed.now ≡ placed_arguments names.now }
    ensures { result ≡ writes_group names.now }
{
    some_state_sets_group(names.decls()) || some_target_is_group(placed)
}
