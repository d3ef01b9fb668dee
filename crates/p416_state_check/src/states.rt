// Whether the states of parsers keep T7 (P4_16 1.2, "Packet parsing"; that each cycle extracts is this project's own).
ghost use Rattle.std.specs.Prelude.{◌≡◌, map, codes, IfOk};
ghost use Rattle.p416_syntax.specs.declared.rule.ProgramRule.TheVariants.{T7};
ghost use Rattle.p416_syntax.specs.Exact.{IsExact};
ghost use Rattle.p416_syntax.specs.Names.{has_name};
ghost use Rattle.p416_syntax.specs.Declarations.{state_name};
ghost use Rattle.p416_syntax.specs.ParserStates.{StatesBreak};
ghost use Rattle.p416_syntax.specs.Breaks.{SomeDeclaration, ParserBreaks, IsBroken};

use crate::graph::state_nodes;
use name_cycles::lead_back;
use p4x_bits::OutOfMemory;
use p416_syntax::{Decl16, Parser16, State, Syntax16};
use std::alloc::Global;

/// The name of the state that a parser begins in.
const START: &[u8] = b"start";

/// Whether one of these states is named `start`.
fn has_start(states: &[State]) -> bool
    ensures { result ≡ has_name (map state_name states.now) (codes "start") }
{
    for state in states {
        if state.name.as_slice() == START {
            return true;
        }
    }
    false
}

/// Whether a parser has no state `start`, or a cycle of its states none of which extracts outside every `if`: T7 of one
/// parser, exactly. Its time is linear in the states and in what they name, but for the look-ups; the one error is want
/// of memory.
pub fn do_states_break(alloc: Global, parser: &Parser16) -> Result<bool, OutOfMemory>
    ensures { IfOk result (λ broken. IsExact broken (StatesBreak parser.now)) }
{
    let states = parser.states.as_slice();
    if !has_start(states) {
        return Ok(true);
    }
    let nodes = state_nodes(alloc, states)?;
    lead_back(alloc, &nodes)
}

/// The same of a declaration: none but a parser breaks T7.
fn does_decl_break(alloc: Global, decl: &Decl16) -> Result<bool, OutOfMemory>
    ensures { IfOk result (λ broken. IsExact broken (ParserBreaks decl.now)) }
{
    match decl {
        Decl16::Parser(parser) => do_states_break(alloc, parser),
        _ => Ok(false),
    }
}

/// The same of these declarations.
fn some_break(alloc: Global, decls: &[Decl16]) -> Result<bool, OutOfMemory>
    ensures { IfOk result (λ broken. IsExact broken (SomeDeclaration ParserBreaks decls.now)) }
{
    for decl in decls {
        if does_decl_break(alloc, decl)? {
            return Ok(true);
        }
    }
    Ok(false)
}

/// Whether a program breaks T7, exactly. Its time is linear in the program, but for the look-ups; the one error is want
/// of memory.
pub fn has_bad_states(alloc: Global, syntax: &Syntax16) -> Result<bool, OutOfMemory>
    ensures { IfOk result (λ broken. IsExact broken (IsBroken syntax.now T7)) }
{
    some_break(alloc, syntax.decls.as_slice())
}
