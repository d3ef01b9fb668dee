// The parser of a program.
ghost use Rattle.std.specs.Prelude.{◌≡◌, IfOk};
ghost use Rattle.p414_sem.specs.Meanings.{Parse14};
ghost use Rattle.p414_layout.specs.Shapes.{layout_of};
ghost use Rattle.p414_ready_parser.specs.Meaning.{Means};
ghost use Rattle.p414_ready_parser.specs.Rows.{ready_rows};
ghost use Rattle.p414_parse_run.specs.Fits.{FitsParser};
ghost use Rattle.p414_parse_run.specs.Shown.{IsParsed};

use crate::run::parse_ready;
use p4x_bits::OutOfMemory;
use p414_body_check::Program14;
use p414_names::names_of;
use p414_ready_parser::{ReadyParser, ready_parser};
use p414_sem::Parsed;
use p414_state::State14;
use std::alloc::Global;

/// The parser of a program, ready to run on its states. The one error is want of memory.
#[tactic(auto, using(crate::proofs::Accepted::names_once))]
pub fn ready14(alloc: Global, program: &Program14) -> Result<ReadyParser, OutOfMemory>
    ensures is { IfOk result (λ parser. parser ≡ ready_rows program.now.decls) }
    ensures means { IfOk result (Means program.now.decls) }
    ensures fits { IfOk result (FitsParser (layout_of program.now.decls)) }
{
    let decls = program.syntax().decls.as_slice();
    match names_of(alloc, decls)? {
        Some(names) => ready_parser(alloc, &names),
        None => unreachable!(),
    }
}

/// Parses a packet as the program says (P4_14 1.0.5, "Parser Specification", "Standard Parser Exceptions"). It ends in one of
/// the four ways of `Parsed`, each exactly where the program raises it, and leaves the state that the program leaves. The one
/// error is want of memory, and the state isn't used again after it.
pub fn parse14(
    alloc: Global,
    program: &Program14,
    state: &mut State14,
) -> Result<Parsed, OutOfMemory>
    requires { state.old.layout ≡ layout_of program.now.decls }
    ensures { IfOk result (IsParsed state.old state.new (Parse14 program.now.decls state.old.state)) }
{
    let parser = ready14(alloc, program)?;
    parse_ready(&parser, state)
}
