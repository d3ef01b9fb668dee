// The variables of primitives.
ghost use Rattle.std.specs.Prelude.{◌≡◌, ◌<◌, ◌++◌, ◌∷◌, [], length, decimal, IfOk};
ghost use Rattle.p416_syntax.specs.declared.parts.Type16.TheVariants as type_of;
ghost use Rattle.p416_syntax.specs.Tree as tree;
ghost use Rattle.p416_syntax.specs.Tree.{stmt_at};
ghost use Rattle.lower_laws_base.specs.Mirror.{plain};
ghost use Rattle.lower_laws_translated.specs.Translated.{spare_name};
ghost use Rattle.lower_expressions.specs.Table.{words_in};
ghost use Rattle.lower_expressions.specs.Making.{MakesExp, MakesStmt};
ghost use Rattle.lower_primitives.specs.Spares.{spare_front, spare_number};

use itoa::Buffer;
use lower_expressions::{Variables, WordsTable, plain};
use p4x_bits::{OutOfMemory, Text};
use p416_syntax::{ExpNode, Nodes, StmtNode, Type16};
use std::alloc::Global;

/// What a variable of a primitive is for.
#[derive(Clone, Copy, Drop)]
pub enum Spare {
    /// A register's cell, or a hash.
    Got,
    /// A hash that is cut.
    Cut,
    /// A colour.
    Colour,
}

/// How a variable's name begins.
fn spare_front(which: Spare) -> &'static [u8]
    ensures { result.now ≡ spare_front which }
{
    match which {
        Spare::Got => b"got_v",
        Spare::Cut => b"cut_w",
        Spare::Colour => b"colour_x",
    }
}

/// How a variable's name begins, the number of the primitive, and `_`.
fn numbered_text(alloc: Global, number: u32, which: Spare) -> Result<Text, OutOfMemory>
    ensures { IfOk result (λ text. text ≡ spare_front which ++ decimal number ++ 95 ∷ []) }
{
    let mut text = Text::from_slice(alloc, spare_front(which))?;
    text.extend_from_slice(Buffer::new().format(number).as_bytes())?;
    text.push(b'_')?;
    Ok(text)
}

/// The name of a variable of the primitive with a number.
#[tactic(auto, using(crate::proofs::SpareNames::spare_is))]
fn primitive_text(alloc: Global, number: u32, which: Spare) -> Result<Text, OutOfMemory>
    ensures { IfOk result (λ text. text ≡ spare_name number (spare_number which)) }
{
    let text = numbered_text(alloc, number, which)?;
    Ok(text)
}

/// The same, where primitives have variables.
pub fn spare_text(
    alloc: Global,
    table: &WordsTable<'_>,
    number: u32,
    which: Spare,
) -> Result<Text, OutOfMemory>
    ensures { IfOk result (λ text. text ≡ (words_in table.now).spare number (spare_number which)) }
{
    match table.variables {
        Variables::Primitives => primitive_text(alloc, number, which),
        Variables::Copies => Ok(Text::new(alloc)),
        Variables::Nothing => Ok(Text::new(alloc)),
    }
}

/// A variable of a primitive, declared behind other statements.
pub fn spare_declared(
    alloc: Global,
    nodes: &mut Nodes,
    table: &WordsTable<'_>,
    number: u32,
    which: Spare,
    width: u32,
    done: usize,
) -> Result<usize, OutOfMemory>
    requires { done < length nodes.old.stmts }
    ensures { IfOk result (λ place. MakesStmt nodes.old nodes.new place ((tree.then) (stmt_at nodes.old.stmts done) (tree.var (type_of.Bit (plain width)) ((words_in table.now).spare number (spare_number which))))) }
{
    let text = spare_text(alloc, table, number, which)?;
    let declared = nodes.statement(StmtNode::Var(Type16::Bit(plain(width)), text))?;
    let place = nodes.statement(StmtNode::Then(done, declared))?;
    Ok(place)
}

/// The name of a variable of a primitive.
pub fn spare_named(
    alloc: Global,
    nodes: &mut Nodes,
    table: &WordsTable<'_>,
    number: u32,
    which: Spare,
) -> Result<usize, OutOfMemory>
    ensures { IfOk result (λ place. MakesExp nodes.old nodes.new place (tree.name ((words_in table.now).spare number (spare_number which)))) }
{
    let text = spare_text(alloc, table, number, which)?;
    let place = nodes.expression(ExpNode::Name(text))?;
    Ok(place)
}
