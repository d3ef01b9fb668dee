// Keys of selects.
ghost use Rattle.std.specs.Prelude.{◌≡◌, ◌+◌, ◌<◌, ◌∷◌, [], length, IfOk};
ghost use Rattle.p414_ready_parser.specs.Rows.{key_bits};
ghost use Rattle.p416_syntax.specs.Tree.{exp_at};
ghost use Rattle.lower_expressions.specs.Making.{MakesExp};
ghost use Rattle.lower_expressions.specs.Table.{words_in};
ghost use Rattle.lower_parser.specs.Has.{PartsHave, ValueHas};
ghost use Rattle.lower_parser.specs.Rows.{row_key, row_key_from, row_key_part};

use crate::values::value;
use lower_expressions::WordsTable;
use p4x_bits::{OutOfMemory, Rows};
use p414_ready_parser::SelectPart;
use p416_syntax::{BinaryOperator, Exp, ExpNode, Nodes};
use std::alloc::Global;

/// A value of a key.
fn key_part(
    alloc: Global,
    nodes: &mut Nodes,
    table: &WordsTable<'_>,
    element: Option<u32>,
    part: SelectPart,
) -> Result<usize, OutOfMemory>
    requires { ValueHas (words_in table.now) part.value }
    ensures { IfOk result (λ place. MakesExp nodes.old nodes.new place (row_key_part (words_in table.now) element part)) }
{
    value(alloc, nodes, table, element, part.width, part.value)
}

/// Values behind a key so far.
fn key_from(
    alloc: Global,
    nodes: &mut Nodes,
    table: &WordsTable<'_>,
    element: Option<u32>,
    done: usize,
    parts: &[SelectPart],
) -> Result<usize, OutOfMemory>
    requires done { done < length nodes.old.exps }
    requires parts { PartsHave (words_in table.now) parts.now }
    ensures { IfOk result (λ place. MakesExp nodes.old nodes.new place (row_key_from (words_in table.now) element (exp_at nodes.old.exps done) parts.now)) }
{
    let mut done = done;
    for part in parts {
        let next = key_part(alloc, nodes, table, element, *part)?;
        done = nodes.expression(ExpNode::Binary(BinaryOperator::Concatenate, done, next))?;
    }
    Ok(done)
}

/// The values of a select, joined.
fn key(
    alloc: Global,
    nodes: &mut Nodes,
    table: &WordsTable<'_>,
    element: Option<u32>,
    parts: &[SelectPart],
) -> Result<usize, OutOfMemory>
    requires { PartsHave (words_in table.now) parts.now }
    ensures { IfOk result (λ place. MakesExp nodes.old nodes.new place (row_key (words_in table.now) element parts.now)) }
{
    if let Some((first, rest)) = parts.split_first() {
        let done = key_part(alloc, nodes, table, element, *first)?;
        key_from(alloc, nodes, table, element, done, rest)
    } else {
        let place = nodes.expression(ExpNode::NoArguments)?;
        Ok(place)
    }
}

/// The one key of a select.
pub fn keys(
    alloc: Global,
    table: &WordsTable<'_>,
    element: Option<u32>,
    parts: &[SelectPart],
) -> Result<Rows<Exp>, OutOfMemory>
    requires { PartsHave (words_in table.now) parts.now }
    ensures { IfOk result (λ keys. keys ≡ row_key (words_in table.now) element parts.now ∷ []) }
{
    let mut nodes = Nodes::new(alloc);
    let place = key(alloc, &mut nodes, table, element, parts)?;
    let mut keys = Rows::new(alloc);
    keys.push(Exp::new(nodes, place))?;
    Ok(keys)
}

/// The sum of two widths. One that does not fit 8 bits counts as want of memory.
fn add_width(total: u8, width: u8) -> Result<u8, OutOfMemory>
    ensures { IfOk result (λ sum. sum ≡ total + width) }
{
    match total.checked_add(width) {
        Some(sum) => Ok(sum),
        None => Err(OutOfMemory),
    }
}

/// The bits of the key. More than fit 8 bits, which no program has that breaks no rule, count as want of memory.
pub fn key_bits(parts: &[SelectPart]) -> Result<u8, OutOfMemory>
    ensures { IfOk result (λ bits. bits ≡ key_bits parts.now) }
{
    let mut total = 0;
    for part in parts {
        total = add_width(total, part.width)?;
    }
    Ok(total)
}
