// The arguments of a list, in order.
ghost use Rattle.std.specs.Prelude.{◌≡◌, IfOk};
ghost use Rattle.p416_syntax.specs.Uses.{arguments_of};

use p4x_bits::OutOfMemory;
use p416_syntax::{ExpHead, ExpView};
use std::alloc::Global;
use work_stack::Stack;

/// The arguments of an argument list, the first one in front. The one error is want of memory.
#[tactic(auto, using(crate::proofs::Arguing::views_turn))]
pub fn arguments_in<'a>(
    alloc: Global,
    list: &ExpView<'a>,
) -> Result<Stack<ExpView<'a>>, OutOfMemory>
    ensures { IfOk result (λ views. views ≡ arguments_of list.now) }
{
    let mut views = Stack::new(alloc);
    let mut rest = list.again();
    while let ExpHead::Argument(before, last) = rest.head() {
        views.push(last)?;
        rest = before;
    }
    Ok(views)
}
