// What the calls of a parser name (P4_16 1.2, "Parsers").
ghost use Rattle.std.specs.Prelude.{◌≡◌, [], map, codes};
ghost use Rattle.p416_syntax.specs.Declarations.{layouts_of};
ghost use Rattle.p416_signature.specs.internal.Gathered.{objects_seen, AreObjects};
ghost use Rattle.v1_core.specs.Programs.{frame_kinds, first_start};
ghost use Rattle.v1_seats.specs.Seen.{seen_seat};
ghost use Rattle.v1_seats.specs.Frame.{seats_from};
ghost use Rattle.v1_ready_operands.specs.Callees.{around_of, AreCallees};
ghost use Rattle.v1_ready_controls.specs.Program.{slot_in_standard};
ghost use Rattle.v1_ready_whole.specs.Parsers.{around_parser};

use name_numbers::Numbering;
use p416_signature::{ByName, Objects};
use p416_syntax::Syntax16;
use v1_ready_operands::Callees;
use v1_seats::Seat;

/// What the calls of a parser name, which declares neither actions nor tables nor objects, in the program with these objects, seats and
/// slots.
#[tactic(auto, using(crate::proofs::Calling::callees_are))]
pub(crate) fn callees_of<'b, 'a>(
    syntax: &'b Syntax16,
    objects: &'b Objects<'a>,
    seats: &'b [Seat<'a>],
    checksum_error: Option<u32>,
    packet_length: Option<u32>,
    nothing: &'b Numbering<'a>,
    own: &'b ByName<'a>,
) -> Callees<'b, 'a>
    requires objects { AreObjects syntax.now objects.now }
    requires seats { map seen_seat seats.now ≡ seats_from (layouts_of syntax.now.decls) (frame_kinds syntax.now) first_start }
    requires checksum_error { checksum_error ≡ slot_in_standard syntax.now (codes "checksum_error") }
    requires packet_length { packet_length ≡ slot_in_standard syntax.now (codes "packet_length") }
    requires nothing { nothing.now ≡ [] }
    requires own { objects_seen own.now ≡ [] }
    ensures around { around_of result ≡ around_parser syntax.now }
    ensures callees { AreCallees result }
{
    Callees {
        syntax,
        locals: &[],
        actions: &[],
        action_names: nothing,
        tables: nothing,
        own_objects: own,
        objects,
        seats,
        checksum_error,
        packet_length,
    }
}
