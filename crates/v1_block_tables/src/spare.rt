// What an application of a table works with.
ghost use Rattle.std.specs.Prelude.{◌≡◌};
ghost use Rattle.v1_block_tables.specs.Applying.{lent_run, lent_spare};

use p4x_bits::{Bits, Rows};
use std::alloc::Global;
use std::mem::swap;
use v1_block_run::Task;
use v1_core::Scalar;
use v1_statement_run::{Hit, Run};
use work_stack::Stack;

/// What the action of a table works with beside a run: what is still to be done of it, and the arguments of its externs. Its room
/// stays from one application to the next.
pub struct Spare {
    /// What is still to be done.
    pub tasks: Stack<Task>,
    /// The values of arguments.
    pub values: Rows<Scalar>,
    /// The bits of the list in braces among them.
    pub list: Bits,
}

impl Drop for Spare {
    fn drop(self) {
        let Spare {
            tasks: _tasks,
            values: _values,
            list: _list,
        } = self;
    }
}

impl Spare {
    /// Without room. It takes no memory.
    pub fn new(alloc: Global) -> Self {
        Spare {
            tasks: Stack::new(alloc),
            values: Rows::new(alloc),
            list: Bits::new(alloc),
        }
    }
}

/// A run and what is spare exchange their arguments of externs, and the run has this entry in place of the one that it gives.
pub fn exchange(run: &mut Run<'_>, spare: &mut Spare, hit: Option<Hit>) -> Option<Hit>
    ensures run { run.new ≡ lent_run spare.old hit run.old }
    ensures spare { spare.new ≡ lent_spare run.old spare.old }
    ensures hit { result ≡ run.old.hit }
{
    let before = run.hit;
    swap(&mut run.values, &mut spare.values);
    swap(&mut run.list, &mut spare.list);
    run.hit = hit;
    before
}
