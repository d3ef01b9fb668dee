// Hashes.
ghost use Rattle.std.specs.Prelude.{◌≡◌, ◌<◌, ◌≤◌, true, false, nat_lt, length, IfOk};
ghost use Rattle.p414_ready_actions.specs.Running.{shown_source};
ghost use Rattle.p416_syntax.specs.Tree as tree;
ghost use Rattle.p416_syntax.specs.Tree.{exp_at, stmt_at};
ghost use Rattle.lower_laws_actions.specs.Mirror.{algorithm_width, behind_stmts};
ghost use Rattle.lower_expressions.specs.Table.{at_in, words_in};
ghost use Rattle.lower_rows.specs.Calculations.{calculation_at};
ghost use Rattle.lower_primitives.specs.Spares.{spare_number};
ghost use Rattle.lower_primitives.specs.Has.{HashHas, ItemHas, ItemsHave};
ghost use Rattle.lower_expressions.specs.Has.{SourceHas};
ghost use Rattle.lower_primitives.specs.Rows.{filled_stmt, hash_of, row_cut_stmts, row_hash_stmts, row_item_exp, row_items_exp};
ghost use Rattle.lower_expressions.specs.Making.{MakesExp, MakesStmt};

use crate::spares::{Spare, spare_declared, spare_named};
use lower_expressions::{
    ReadAt, WordsTable, function_call, literal, member_of_name, one_argument, own_expression,
    power, slot_expression, two_arguments,
};
use lower_rows::{CalculationRow, HashItem};
use p4x_bits::OutOfMemory;
use p414_ready_actions::ReadySource;
use p416_syntax::{ExpNode, Nodes, StmtNode};
use std::alloc::Global;

const CSUM16: &[u8] = b"csum16";

const CRC16: &[u8] = b"crc16";

const CRC32: &[u8] = b"crc32";

/// The bits of an algorithm's result by itself.
fn algorithm_width(algorithm: &[u8]) -> u32
    ensures is { result ≡ algorithm_width algorithm.now }
    ensures fits { result ≤ 128 }
{
    if algorithm == CSUM16 {
        16
    } else if algorithm == CRC16 {
        16
    } else if algorithm == CRC32 {
        32
    } else {
        128
    }
}

/// Whether a result is cut to the bits that the calculation gives.
fn is_cut(row: &CalculationRow) -> bool
    ensures is { result ≡ nat_lt row.now.width (algorithm_width row.now.algorithm) }
    ensures fits { result ≡ true → row.now.width < 128 }
{
    row.width < algorithm_width(row.algorithm.as_slice())
}

/// An item of a calculation.
fn item_expression(
    alloc: Global,
    nodes: &mut Nodes,
    table: &WordsTable<'_>,
    at: ReadAt,
    item: HashItem,
) -> Result<usize, OutOfMemory>
    requires { ItemHas (words_in table.now) item }
    ensures { IfOk result (λ place. MakesExp nodes.old nodes.new place (row_item_exp (words_in table.now) (at_in at) item)) }
{
    match item {
        HashItem::Number(width, value) => literal(nodes, width, value),
        HashItem::Field(slot) => slot_expression(alloc, nodes, table, at, slot),
        HashItem::Other => {
            let place = nodes.expression(ExpNode::NoArguments)?;
            Ok(place)
        }
    }
}

/// The items of a calculation, as arguments.
fn items_expression(
    alloc: Global,
    nodes: &mut Nodes,
    table: &WordsTable<'_>,
    at: ReadAt,
    items: &[HashItem],
) -> Result<usize, OutOfMemory>
    requires { ItemsHave (words_in table.now) items.now }
    ensures { IfOk result (λ place. MakesExp nodes.old nodes.new place (row_items_exp (words_in table.now) (at_in at) tree.no_arguments items.now)) }
{
    let mut given = nodes.expression(ExpNode::NoArguments)?;
    for item in items {
        let next = item_expression(alloc, nodes, table, at, *item)?;
        given = nodes.expression(ExpNode::Argument(given, next))?;
    }
    Ok(given)
}

/// A call of a hash, into a variable.
fn hash_call(
    alloc: Global,
    nodes: &mut Nodes,
    to: usize,
    algorithm: &[u8],
    base: usize,
    items: usize,
    bound: usize,
) -> Result<usize, OutOfMemory>
    requires to { to < length nodes.old.exps }
    requires base { base < length nodes.old.exps }
    requires items { items < length nodes.old.exps }
    requires bound { bound < length nodes.old.exps }
    ensures { IfOk result (λ place. MakesStmt nodes.old nodes.new place (hash_of (exp_at nodes.old.exps to) algorithm.now (exp_at nodes.old.exps base) (exp_at nodes.old.exps items) (exp_at nodes.old.exps bound))) }
{
    let algorithm = member_of_name(alloc, nodes, b"HashAlgorithm", algorithm)?;
    let two = two_arguments(nodes, to, algorithm)?;
    let three = nodes.expression(ExpNode::Argument(two, base))?;
    let listed = nodes.expression(ExpNode::Listed(items))?;
    let four = nodes.expression(ExpNode::Argument(three, listed))?;
    let five = nodes.expression(ExpNode::Argument(four, bound))?;
    let place = function_call(alloc, nodes, b"hash", five)?;
    Ok(place)
}

/// A variable of a primitive, declared, and filled by a hash.
fn hash_filled(
    alloc: Global,
    nodes: &mut Nodes,
    table: &WordsTable<'_>,
    number: u32,
    which: Spare,
    width: u32,
    algorithm: &[u8],
    base: usize,
    items: usize,
    bound: usize,
    done: usize,
) -> Result<usize, OutOfMemory>
    requires base { base < length nodes.old.exps }
    requires items { items < length nodes.old.exps }
    requires bound { bound < length nodes.old.exps }
    requires behind { done < length nodes.old.stmts }
    ensures { IfOk result (λ place. MakesStmt nodes.old nodes.new place (filled_stmt (stmt_at nodes.old.stmts done) width ((words_in table.now).spare number (spare_number which)) algorithm.now (exp_at nodes.old.exps base) (exp_at nodes.old.exps items) (exp_at nodes.old.exps bound))) }
{
    let done = spare_declared(alloc, nodes, table, number, which, width, done)?;
    let to = spare_named(alloc, nodes, table, number, which)?;
    let filled = hash_call(alloc, nodes, to, algorithm, base, items, bound)?;
    let place = nodes.statement(StmtNode::Then(done, filled))?;
    Ok(place)
}

/// A hash of all its bits.
fn hash_whole(
    alloc: Global,
    nodes: &mut Nodes,
    table: &WordsTable<'_>,
    at: ReadAt,
    number: u32,
    width: u8,
    base: ReadySource,
    row: &CalculationRow,
    bound: ReadySource,
    done: usize,
) -> Result<usize, OutOfMemory>
    requires base { SourceHas (words_in table.now) (shown_source base) }
    requires bound { SourceHas (words_in table.now) (shown_source bound) }
    requires items { ItemsHave (words_in table.now) row.now.items }
    requires behind { done < length nodes.old.stmts }
    ensures { IfOk result (λ place. MakesStmt nodes.old nodes.new place (behind_stmts (stmt_at nodes.old.stmts done) (row_hash_stmts (words_in table.now) (at_in at) number width (shown_source base) row.now (shown_source bound) false))) }
{
    let base = own_expression(alloc, nodes, table, at, base)?;
    let items = items_expression(alloc, nodes, table, at, row.items.as_slice())?;
    let bound = own_expression(alloc, nodes, table, at, bound)?;
    let algorithm = row.algorithm.as_slice();
    let which = Spare::Got;
    let width = width as u32;
    hash_filled(
        alloc, nodes, table, number, which, width, algorithm, base, items, bound, done,
    )
}

/// The result of a calculation, cut to the bits that it gives.
fn cut(
    alloc: Global,
    nodes: &mut Nodes,
    table: &WordsTable<'_>,
    at: ReadAt,
    number: u32,
    row: &CalculationRow,
    done: usize,
) -> Result<usize, OutOfMemory>
    requires fits { row.now.width < 128 }
    requires items { ItemsHave (words_in table.now) row.now.items }
    requires behind { done < length nodes.old.stmts }
    ensures { IfOk result (λ place. MakesStmt nodes.old nodes.new place (behind_stmts (stmt_at nodes.old.stmts done) (row_cut_stmts (words_in table.now) (at_in at) ((words_in table.now).spare number 1) row.now))) }
{
    let base = literal(nodes, 1, 0)?;
    let items = items_expression(alloc, nodes, table, at, row.items.as_slice())?;
    let bits = row.width as u8;
    let bound = literal(nodes, bits + 1, power(bits))?;
    let algorithm = row.algorithm.as_slice();
    let which = Spare::Cut;
    hash_filled(
        alloc, nodes, table, number, which, row.width, algorithm, base, items, bound, done,
    )
}

/// A hash of a result that is cut.
fn hash_cut(
    alloc: Global,
    nodes: &mut Nodes,
    table: &WordsTable<'_>,
    at: ReadAt,
    number: u32,
    width: u8,
    base: ReadySource,
    row: &CalculationRow,
    bound: ReadySource,
    done: usize,
) -> Result<usize, OutOfMemory>
    requires fits { row.now.width < 128 }
    requires base { SourceHas (words_in table.now) (shown_source base) }
    requires bound { SourceHas (words_in table.now) (shown_source bound) }
    requires items { ItemsHave (words_in table.now) row.now.items }
    requires behind { done < length nodes.old.stmts }
    ensures { IfOk result (λ place. MakesStmt nodes.old nodes.new place (behind_stmts (stmt_at nodes.old.stmts done) (row_hash_stmts (words_in table.now) (at_in at) number width (shown_source base) row.now (shown_source bound) true))) }
{
    let done = cut(alloc, nodes, table, at, number, row, done)?;
    let base = own_expression(alloc, nodes, table, at, base)?;
    let result = spare_named(alloc, nodes, table, number, Spare::Cut)?;
    let items = one_argument(nodes, result)?;
    let bound = own_expression(alloc, nodes, table, at, bound)?;
    let which = Spare::Got;
    let width = width as u32;
    hash_filled(
        alloc,
        nodes,
        table,
        number,
        which,
        width,
        b"identity",
        base,
        items,
        bound,
        done,
    )
}

/// A hash, as the front of its primitive.
pub fn hash_front(
    alloc: Global,
    nodes: &mut Nodes,
    table: &WordsTable<'_>,
    at: ReadAt,
    number: u32,
    width: u8,
    base: ReadySource,
    calculation: u32,
    bound: ReadySource,
    done: usize,
) -> Result<usize, OutOfMemory>
    requires base { SourceHas (words_in table.now) (shown_source base) }
    requires bound { SourceHas (words_in table.now) (shown_source bound) }
    requires row { HashHas table.now calculation }
    requires behind { done < length nodes.old.stmts }
    ensures { IfOk result (λ place. MakesStmt nodes.old nodes.new place (behind_stmts (stmt_at nodes.old.stmts done) (row_hash_stmts (words_in table.now) (at_in at) number width (shown_source base) (calculation_at table.now.calculations.now calculation) (shown_source bound) (nat_lt (calculation_at table.now.calculations.now calculation).width (algorithm_width (calculation_at table.now.calculations.now calculation).algorithm))))) }
{
    let row = table.calculation(calculation);
    if is_cut(row) {
        hash_cut(
            alloc, nodes, table, at, number, width, base, row, bound, done,
        )
    } else {
        hash_whole(
            alloc, nodes, table, at, number, width, base, row, bound, done,
        )
    }
}
