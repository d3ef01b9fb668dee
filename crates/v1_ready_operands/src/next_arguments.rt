// What arguments are, and the statement that calls an extern with some.
ghost use Rattle.std.specs.Prelude.{◌≡◌, ◌∷◌, option_map, IfOk, OnOk};
ghost use Rattle.v1_ready_blocks.specs.Statements.{does};
ghost use Rattle.v1_ready_nodes.specs.Held.{IsHeld, Grows};
ghost use Rattle.v1_ready_statements.specs.Called.{executes, algorithm_called, member_word, algorithm_given};
ghost use Rattle.v1_ready_operands.specs.SeenStatements.{seen_statement, IsStatementIn};
ghost use Rattle.v1_ready_tests.specs.Seen.{seen_arguments};

use crate::putting::put_statement;
use p4x_bits::OutOfMemory;
use p416_syntax::{ExpHead, ExpView, HashAlgorithm};
use v1_ready_blocks::{Extern, StatementNode};
use v1_ready_nodes::ReadyNodes;
use work_stack::Stack;

const NO_WORD: &[u8] = b"";

const CSUM16: &[u8] = b"csum16";

const CRC16: &[u8] = b"crc16";

const CRC32: &[u8] = b"crc32";

const IDENTITY: &[u8] = b"identity";

/// Takes the next argument. That there is none counts as want of memory: no accepted program has a call with too few.
pub fn next_argument<'a>(arguments: &mut Stack<ExpView<'a>>) -> Result<ExpView<'a>, OutOfMemory>
    ensures { IfOk result (λ e. arguments.old ≡ e ∷ arguments.new) }
{
    match arguments.pop() {
        Some(argument) => Ok(argument),
        None => Err(OutOfMemory),
    }
}

/// The word of a member of an enumeration; an empty one of what is none.
pub fn member_word<'a>(view: &ExpView<'a>) -> &'a [u8]
    ensures { result.now ≡ member_word view.now }
{
    match view.head() {
        ExpHead::Member(_, word) => word.as_slice(),
        _ => NO_WORD,
    }
}

/// The algorithm of this name.
fn algorithm_called(word: &[u8]) -> Option<HashAlgorithm>
    ensures { result ≡ algorithm_called word.now }
{
    if word == CSUM16 {
        Some(HashAlgorithm::Csum16)
    } else if word == CRC16 {
        Some(HashAlgorithm::Crc16)
    } else if word == CRC32 {
        Some(HashAlgorithm::Crc32)
    } else if word == IDENTITY {
        Some(HashAlgorithm::Identity)
    } else {
        None
    }
}

/// The algorithm that a member of `HashAlgorithm` is.
pub fn algorithm_given(view: &ExpView<'_>) -> Option<HashAlgorithm>
    ensures { result ≡ algorithm_given view.now }
{
    algorithm_called(member_word(view))
}

/// The call of an extern with arguments, where both are some: the place of the statement, which is put behind the others.
pub fn put_execute(
    nodes: &mut ReadyNodes<'_>,
    what: Option<Extern>,
    arguments: Option<usize>,
) -> Result<Option<usize>, OutOfMemory>
    requires held { IsHeld nodes.old }
    ensures statement { IfOk result (λ found. seen_statement nodes.new found ≡ option_map does (executes what (seen_arguments nodes.old arguments))) }
    ensures within { IfOk result (IsStatementIn nodes.new) }
    ensures grows { OnOk result (Grows nodes.old nodes.new) }
{
    match (what, arguments) {
        (Some(what), Some(arguments)) => {
            let statement = put_statement(nodes, StatementNode::Execute(what, arguments))?;
            Ok(Some(statement))
        }
        _ => Ok(None),
    }
}
