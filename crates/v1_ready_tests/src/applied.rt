// The table that an expression applies (P4_16 1.2, "Match-action unit invocation").
ghost use Rattle.std.specs.Prelude.{◌≡◌, List};
ghost use Rattle.name_numbers.specs.Names.{find_name};
ghost use Rattle.v1_core.specs.Expressions.{name_in};
ghost use Rattle.v1_core.specs.Ready.{Ready};
ghost use Rattle.v1_ready_blocks.specs.Nodes.{Tree, test_of};
ghost use Rattle.v1_ready_nodes.specs.Held.{IsTestOver};
ghost use Rattle.v1_ready_tests.specs.internal.Passes.{callee_table, applied_table, told_by};

use name_numbers::Numbering;
use p416_syntax::{ExpHead, ExpView};
use v1_ready_blocks::TestNode;

const NO_NAME: &[u8] = b"";

const HIT: &[u8] = b"hit";

/// The name that an expression is by itself; none as an empty one.
pub fn name_in<'a>(view: &ExpView<'a>) -> &'a [u8]
    ensures { result.now ≡ name_in view.now }
{
    match view.head() {
        ExpHead::Name(text) => text.as_slice(),
        _ => NO_NAME,
    }
}

/// The table whose method this is.
fn callee_table(tables: &Numbering<'_>, callee: &ExpView<'_>) -> Option<u32>
    ensures { result ≡ callee_table (find_name tables.now) callee.now }
{
    match callee.head() {
        ExpHead::Member(table, _) => tables.find(name_in(&table)),
        _ => None,
    }
}

/// The table that a call applies.
pub fn applied_table(tables: &Numbering<'_>, call: &ExpView<'_>) -> Option<u32>
    ensures { result ≡ applied_table (find_name tables.now) call.now }
{
    match call.head() {
        ExpHead::Call(callee, _) => callee_table(tables, &callee),
        _ => None,
    }
}

/// What the member of this name tells of the application of a table.
pub fn told_by(table: u32, word: &[u8]) -> TestNode
    ensures node { (es : List Ready) (ts : List Tree) → test_of es ts result ≡ told_by word.now table }
    ensures over { IsTestOver 0 result }
{
    if word == HIT {
        TestNode::Hits(table)
    } else {
        TestNode::Misses(table)
    }
}
