// Statements one behind the other, as far as the first of them that is no such list (P4_16 1.2, "Block statement").
ghost use Rattle.std.specs.Prelude.{◌<◌, IfOk};
ghost use Rattle.v1_block_run.specs.Blocks.{count_of};
ghost use Rattle.v1_block_run.specs.Tasks.{AreThere};
ghost use Rattle.v1_block_run.specs.Steps.{Opens};

use crate::block::ReadyBlock;
use crate::nodes::{is_nothing, sequence_parts};
use crate::tasks::{Level, Task};
use p4x_bits::OutOfMemory;
use work_stack::Stack;

/// The same as `first_of`, for statements one behind the other.
#[inline(never)]
#[tactic(auto, using(crate::proofs::Opening::opens, crate::proofs::Opening::part_there))]
fn first_within(
    block: &ReadyBlock<'_>,
    level: Level,
    place: usize,
    ran: Option<u32>,
    tasks: &mut Stack<Task>,
) -> Result<usize, OutOfMemory>
    requires place { place < count_of block.now }
    requires there { AreThere (count_of block.now) tasks.old }
    ensures { IfOk result (λ first. Opens block.now level ran place tasks.old first tasks.new) }
{
    let mut at = place;
    'parts: while let Some((first, last)) = sequence_parts(&block.code, at) {
        if is_nothing(&block.code, first) {
            at = last;
        } else {
            tasks.push(Task::Run(level, last, ran))?;
            at = first;
        }
    }
    Ok(at)
}

/// The first statement of those at a place, where this action ran, if they are a list of cases; what stands behind it is to be done
/// after it. The one error is want of memory.
#[tactic(auto, using(crate::proofs::Opening::opens, crate::proofs::Opening::opens_alone, crate::proofs::Opening::first_there, crate::proofs::Opening::last_there))]
pub fn first_of(
    block: &ReadyBlock<'_>,
    level: Level,
    place: usize,
    ran: Option<u32>,
    tasks: &mut Stack<Task>,
) -> Result<usize, OutOfMemory>
    requires place { place < count_of block.now }
    requires there { AreThere (count_of block.now) tasks.old }
    ensures { IfOk result (λ first. Opens block.now level ran place tasks.old first tasks.new) }
{
    let Some((first, last)) = sequence_parts(&block.code, place) else {
        return Ok(place);
    };
    if is_nothing(&block.code, first) {
        if sequence_parts(&block.code, last).is_none() {
            return Ok(last);
        }
    }
    first_within(block, level, place, ran, tasks)
}
