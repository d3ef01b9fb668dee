// The six blocks of `main` (`v1model.p4`).
ghost use Rattle.std.specs.Prelude.{◌≡◌, map, slice_get, IfOk};
ghost use Rattle.std.specs.Option.{option_map, option_map_or};
ghost use Rattle.p416_syntax.specs.declared.program.Syntax16.{Syntax16};
ghost use Rattle.p416_syntax.specs.Kinds.{unknown};
ghost use Rattle.p416_syntax.specs.Declarations.{top_names};
ghost use Rattle.p416_syntax.specs.Main.{parameter_shape, are_same_shapes, is_block, are_blocks, block_of, block_kind, first_block, checksum_block, pipeline_block, wanted_blocks, headers_kind, metadata_kind, is_main};
ghost use Rattle.p416_names.specs.SeenKinds.{seen_kind};
ghost use Rattle.p416_main_check.specs.internal.Seen.{seen_block, parameter_kind, parser_block, deparser_block};

use crate::block::{Block, block_of, is_parameter};
use crate::structs::{are_headers, is_metadata};
use p4x_bits::{OutOfMemory, Text};
use p416_names::{Kind, Top};
use p416_syntax::{Direction, Param, Syntax16};
use std::alloc::Global;

const STANDARD: Kind<'static> = Kind::Struct(b"standard_metadata_t");

/// What the parameter of a block at a place is; unknown where there is none.
fn kind_at<'a>(top: &Top<'a>, parameters: &[Param], place: usize) -> Kind<'a>
    ensures { seen_kind result ≡ option_map_or (parameter_kind (top_names top.now)) (slice_get parameters.now place) unknown }
{
    match parameters.get(place) {
        Some(parameter) => top.kind_of_type(&parameter.of),
        None => Kind::Unknown,
    }
}

/// The same of a block that may be there.
#[tactic(auto, using(crate::proofs::Blocks::kind_found))]
fn block_kind<'a>(top: &Top<'a>, block: Option<Block<'_>>, place: usize) -> Kind<'a>
    ensures { seen_kind result ≡ block_kind place (option_map (seen_block (top_names top.now)) block.entry) }
{
    match block {
        Some(Block::Parser(parameters)) => kind_at(top, parameters, place),
        Some(Block::Control(parameters)) => kind_at(top, parameters, place),
        None => Kind::Unknown,
    }
}

/// The kinds of a program's headers and metadata.
#[derive(Clone, Copy, Drop)]
pub struct MainKinds<'a> {
    /// What its headers are.
    pub headers: Kind<'a>,
    /// What its metadata is.
    pub metadata: Kind<'a>,
}

/// Whether these are the parameters of a parser: a packet that is read, headers, metadata and the standard metadata.
#[tactic(auto, using(crate::proofs::Blocks::too_few, crate::proofs::Blocks::too_many))]
fn are_of_parser(top: &Top<'_>, parameters: &[Param], of: MainKinds<'_>) -> bool
    ensures { result ≡ are_same_shapes (parser_block (seen_kind of.entry.headers) (seen_kind of.entry.metadata)).parameters (map (parameter_shape (top_names top.now)) parameters.now) }
{
    let [packet, headers, metadata, standard] = parameters else {
        return false;
    };
    is_parameter(top, packet, None, Kind::PacketIn)
        && is_parameter(top, headers, Some(Direction::Out), of.headers)
        && is_parameter(top, metadata, Some(Direction::InOut), of.metadata)
        && is_parameter(top, standard, Some(Direction::InOut), STANDARD)
}

/// Whether these are the parameters of ingress or egress: headers, metadata and the standard metadata.
#[tactic(auto, using(crate::proofs::Blocks::too_few, crate::proofs::Blocks::too_many))]
fn are_of_pipeline(top: &Top<'_>, parameters: &[Param], of: MainKinds<'_>) -> bool
    ensures { result ≡ are_same_shapes (pipeline_block (seen_kind of.entry.headers) (seen_kind of.entry.metadata)).parameters (map (parameter_shape (top_names top.now)) parameters.now) }
{
    let [headers, metadata, standard] = parameters else {
        return false;
    };
    is_parameter(top, headers, Some(Direction::InOut), of.headers)
        && is_parameter(top, metadata, Some(Direction::InOut), of.metadata)
        && is_parameter(top, standard, Some(Direction::InOut), STANDARD)
}

/// Whether the block of this name is a parser with its parameters.
fn is_parser(top: &Top<'_>, name: &Text, of: MainKinds<'_>) -> bool
    ensures { result ≡ is_block (parser_block (seen_kind of.entry.headers) (seen_kind of.entry.metadata)) (block_of (top_names top.now) top.now name.now) }
{
    match block_of(top.decls(), name.as_slice()) {
        Some(Block::Parser(parameters)) => are_of_parser(top, parameters, of),
        _ => false,
    }
}

/// Whether the block of this name is a control of headers and metadata.
fn is_checksum(top: &Top<'_>, name: &Text, of: MainKinds<'_>) -> bool
    ensures { result ≡ is_block (checksum_block (seen_kind of.entry.headers) (seen_kind of.entry.metadata)) (block_of (top_names top.now) top.now name.now) }
{
    let Some(Block::Control([headers, metadata])) = block_of(top.decls(), name.as_slice()) else {
        return false;
    };
    is_parameter(top, headers, Some(Direction::InOut), of.headers)
        && is_parameter(top, metadata, Some(Direction::InOut), of.metadata)
}

/// Whether the block of this name is a control with the parameters of ingress or egress.
fn is_pipeline(top: &Top<'_>, name: &Text, of: MainKinds<'_>) -> bool
    ensures { result ≡ is_block (pipeline_block (seen_kind of.entry.headers) (seen_kind of.entry.metadata)) (block_of (top_names top.now) top.now name.now) }
{
    match block_of(top.decls(), name.as_slice()) {
        Some(Block::Control(parameters)) => are_of_pipeline(top, parameters, of),
        _ => false,
    }
}

/// Whether the block of this name is a control of a packet that is written and of headers.
fn is_deparser(top: &Top<'_>, name: &Text, of: MainKinds<'_>) -> bool
    ensures { result ≡ is_block (deparser_block (seen_kind of.entry.headers)) (block_of (top_names top.now) top.now name.now) }
{
    let Some(Block::Control([packet, headers])) = block_of(top.decls(), name.as_slice()) else {
        return false;
    };
    is_parameter(top, packet, None, Kind::PacketOut)
        && is_parameter(top, headers, Some(Direction::In), of.headers)
}

/// Whether these are the six blocks of `main`, in order.
#[tactic(auto, using(crate::proofs::Blocks::too_few_blocks, crate::proofs::Blocks::too_many_blocks))]
fn are_blocks(top: &Top<'_>, main: &[Text], of: MainKinds<'_>) -> bool
    ensures { result ≡ are_blocks (top_names top.now) top.now (wanted_blocks (seen_kind of.entry.headers) (seen_kind of.entry.metadata)) main.now }
{
    let [parser, verify, ingress, egress, compute, deparser] = main else {
        return false;
    };
    is_parser(top, parser, of)
        && is_checksum(top, verify, of)
        && is_pipeline(top, ingress, of)
        && is_pipeline(top, egress, of)
        && is_checksum(top, compute, of)
        && is_deparser(top, deparser, of)
}

/// The first block of `main`.
fn first_block<'a>(top: &Top<'a>, main: &[Text]) -> Option<Block<'a>>
    ensures { (s : Syntax16) → s.decls ≡ top.now → s.main ≡ main.now → option_map (seen_block (top_names top.now)) result ≡ first_block s }
{
    match main.first() {
        Some(name) => block_of(top.decls(), name.as_slice()),
        None => None,
    }
}

/// The kinds of a program's headers and metadata: those of the second and the third parameter of its first block; unknown
/// where it has none. In time linear in the declarations, but for the look-ups; it takes no memory.
pub fn main_kinds<'a>(top: &Top<'a>, main: &[Text]) -> MainKinds<'a>
    ensures headers { (s : Syntax16) → s.decls ≡ top.now → s.main ≡ main.now → seen_kind result.headers ≡ headers_kind s }
    ensures metadata { (s : Syntax16) → s.decls ≡ top.now → s.main ≡ main.now → seen_kind result.metadata ≡ metadata_kind s }
{
    let first = first_block(top, main);
    MainKinds {
        headers: block_kind(top, first, 1),
        metadata: block_kind(top, first, 2),
    }
}

/// Whether `main` names six blocks with their parameters, each of the same headers and metadata: a struct of headers and
/// stacks, and one of bits and of structs of bits. This is what T11 asks of a program whose names at the top are these,
/// exactly. In time linear in the declarations, but for the look-ups; the one error is want of memory.
pub fn is_main(alloc: Global, top: &Top<'_>, main: &[Text]) -> Result<bool, OutOfMemory>
    ensures { (s : Syntax16) → s.decls ≡ top.now → s.main ≡ main.now → IfOk result (λ holds. holds ≡ is_main s) }
{
    let of = main_kinds(top, main);
    if !are_blocks(top, main, of) || !are_headers(top, of.headers) {
        return Ok(false);
    }
    is_metadata(alloc, top, of.metadata)
}
