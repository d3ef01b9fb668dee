// The parameters of blocks (`v1model.p4`).
ghost use Rattle.std.specs.Prelude.{◌≡◌, ◌++◌, map, OnOk};
ghost use Rattle.p416_syntax.specs.Declarations.{parameter_name};
ghost use Rattle.v1_core.specs.Surroundings.{rooted};
ghost use Rattle.v1_core.specs.Parsing.{parser_owners};
ghost use Rattle.v1_core.specs.Blocks.{owners_of};
ghost use Rattle.v1_core.specs.declared.block.Block.TheVariants.{Verify, Ingress, Deparse};
ghost use Rattle.v1_ready_program.specs.Seen.{seen_seats};
ghost use Rattle.v1_block_seats.specs.internal.Wanted.{named_root};

use crate::variables::seat_with;
use p4x_bits::OutOfMemory;
use p416_syntax::Param;
use v1_core::Block;
use v1_ready_program::NamedSeats;
use v1_seats::Seat;

/// The numbers of the packet's values among all of a frame.
const HEADERS: usize = 0;

const METADATA: usize = 1;

const STANDARD: usize = 2;

/// Declares the parameters of a parser: the packet, headers, metadata and standard metadata. Another number of parameters, which
/// no accepted program has, counts as want of memory.
pub(crate) fn declare_of_parser<'a>(
    names: &mut NamedSeats<'a>,
    seats: &[Seat<'a>],
    parameters: &'a [Param],
) -> Result<(), OutOfMemory>
    ensures { OnOk result (seen_seats names.new ≡ map (named_root seats.now) (rooted (map parameter_name parameters.now) parser_owners) ++ seen_seats names.old) }
{
    let [packet, headers, metadata, standard] = parameters else {
        return Err(OutOfMemory);
    };
    names.declare(standard.name.as_slice(), seat_with(seats, STANDARD))?;
    names.declare(metadata.name.as_slice(), seat_with(seats, METADATA))?;
    names.declare(headers.name.as_slice(), seat_with(seats, HEADERS))?;
    names.declare(packet.name.as_slice(), None)
}

/// Declares the parameters of verify or of compute: headers and metadata.
fn declare_of_checksums<'a>(
    names: &mut NamedSeats<'a>,
    seats: &[Seat<'a>],
    parameters: &'a [Param],
) -> Result<(), OutOfMemory>
    ensures { OnOk result (seen_seats names.new ≡ map (named_root seats.now) (rooted (map parameter_name parameters.now) (owners_of Verify)) ++ seen_seats names.old) }
{
    let [headers, metadata] = parameters else {
        return Err(OutOfMemory);
    };
    names.declare(metadata.name.as_slice(), seat_with(seats, METADATA))?;
    names.declare(headers.name.as_slice(), seat_with(seats, HEADERS))
}

/// Declares the parameters of ingress or of egress: headers, metadata and standard metadata.
fn declare_of_pipeline<'a>(
    names: &mut NamedSeats<'a>,
    seats: &[Seat<'a>],
    parameters: &'a [Param],
) -> Result<(), OutOfMemory>
    ensures { OnOk result (seen_seats names.new ≡ map (named_root seats.now) (rooted (map parameter_name parameters.now) (owners_of Ingress)) ++ seen_seats names.old) }
{
    let [headers, metadata, standard] = parameters else {
        return Err(OutOfMemory);
    };
    names.declare(standard.name.as_slice(), seat_with(seats, STANDARD))?;
    names.declare(metadata.name.as_slice(), seat_with(seats, METADATA))?;
    names.declare(headers.name.as_slice(), seat_with(seats, HEADERS))
}

/// Declares the parameters of a deparser: the packet and headers.
fn declare_of_deparser<'a>(
    names: &mut NamedSeats<'a>,
    seats: &[Seat<'a>],
    parameters: &'a [Param],
) -> Result<(), OutOfMemory>
    ensures { OnOk result (seen_seats names.new ≡ map (named_root seats.now) (rooted (map parameter_name parameters.now) (owners_of Deparse)) ++ seen_seats names.old) }
{
    let [packet, headers] = parameters else {
        return Err(OutOfMemory);
    };
    names.declare(headers.name.as_slice(), seat_with(seats, HEADERS))?;
    names.declare(packet.name.as_slice(), None)
}

/// Declares the parameters of a control that stands as this block; errors as those of `declare_of_parser`.
pub(crate) fn declare_of_control<'a>(
    names: &mut NamedSeats<'a>,
    seats: &[Seat<'a>],
    block: Block,
    parameters: &'a [Param],
) -> Result<(), OutOfMemory>
    ensures { OnOk result (seen_seats names.new ≡ map (named_root seats.now) (rooted (map parameter_name parameters.now) (owners_of block)) ++ seen_seats names.old) }
{
    match block {
        Block::Verify => declare_of_checksums(names, seats, parameters),
        Block::Ingress => declare_of_pipeline(names, seats, parameters),
        Block::Egress => declare_of_pipeline(names, seats, parameters),
        Block::Compute => declare_of_checksums(names, seats, parameters),
        Block::Deparse => declare_of_deparser(names, seats, parameters),
    }
}
