// Parsers and controls with their parameters (P4_16 1.2, "Parameterization", "Calling convention: call by copy in/copy out").
ghost use Rattle.std.specs.Prelude.{◌≡◌, List};
ghost use Rattle.std.specs.Option.{option_map};
ghost use Rattle.p416_syntax.specs.Scopes.{Known};
ghost use Rattle.p416_syntax.specs.Declarations.{top_names};
ghost use Rattle.p416_syntax.specs.Main.{shape, parameter_shape, block_in, block_of, is_same_direction, is_same_parameter_kind, is_same_shape};
ghost use Rattle.p416_names.specs.SeenKinds.{seen_kind};
ghost use Rattle.p416_main_check.specs.internal.Seen.{seen_block};

use p416_names::{Kind, Top};
use p416_syntax::{Decl16, Direction, Param};

/// A parser or a control, by its parameters.
#[derive(Clone, Copy, Drop)]
pub(crate) enum Block<'a> {
    /// A parser.
    Parser(&'a [Param]),
    /// A control.
    Control(&'a [Param]),
}

/// A declaration as a block of this name; none where it is no parser or control, or has another name.
fn block_in<'a>(decl: &'a Decl16, name: &[u8]) -> Option<Block<'a>>
    ensures { (names : List Known) → option_map (seen_block names) result ≡ block_in names name.now decl.now }
{
    match decl {
        Decl16::Parser(parser) if parser.name.as_slice() == name => {
            Some(Block::Parser(parser.parameters.as_slice()))
        }
        Decl16::Control(control) if control.name.as_slice() == name => {
            Some(Block::Control(control.parameters.as_slice()))
        }
        _ => None,
    }
}

/// The first block of this name.
pub(crate) fn block_of<'a>(decls: &'a [Decl16], name: &[u8]) -> Option<Block<'a>>
    ensures { (names : List Known) → option_map (seen_block names) result ≡ block_of names decls.now name.now }
{
    for decl in decls {
        if let Some(block) = block_in(decl, name) {
            return Some(block);
        }
    }
    None
}

/// Whether two parameters are handed over the same way.
fn is_same_direction(wanted: Option<Direction>, written: Option<Direction>) -> bool
    ensures { result ≡ is_same_direction wanted written }
{
    match wanted {
        None => written.is_none(),
        Some(Direction::In) => matches!(written, Some(Direction::In)),
        Some(Direction::Out) => matches!(written, Some(Direction::Out)),
        Some(Direction::InOut) => matches!(written, Some(Direction::InOut)),
    }
}

/// Whether two kinds are the same, which here a packet and one of its own kind are too.
fn is_same_parameter_kind(wanted: Kind<'_>, written: Kind<'_>) -> bool
    ensures { result ≡ is_same_parameter_kind (seen_kind wanted.entry) (seen_kind written.entry) }
{
    match wanted {
        Kind::PacketIn => matches!(written, Kind::PacketIn),
        Kind::PacketOut => matches!(written, Kind::PacketOut),
        _ => wanted.is_same(written),
    }
}

/// Whether a parameter is handed over in this way and is of this kind.
pub(crate) fn is_parameter(
    top: &Top<'_>,
    parameter: &Param,
    direction: Option<Direction>,
    kind: Kind<'_>,
) -> bool
    ensures { result ≡ is_same_shape (shape direction (seen_kind kind.entry)) (parameter_shape (top_names top.now) parameter.now) }
{
    is_same_direction(direction, parameter.direction)
        && is_same_parameter_kind(kind, top.kind_of_type(&parameter.of))
}
