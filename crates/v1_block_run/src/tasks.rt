// What is still to be done.

/// Where statements stand: in the block itself, where tables may be applied; or in an action, where none is, and where calls of
/// actions nest so deep at most.
#[derive(Clone, Copy, PartialEq, Eq, Drop)]
pub enum Level {
    /// In the block.
    Block,
    /// In an action.
    Action(usize),
}

/// A part of a run that is still to be done.
#[derive(Clone, Copy, Drop)]
pub enum Task {
    /// The statement at a place, where this action ran, if it is a list of cases.
    Run(Level, usize, Option<u32>),
    /// Parameters at a place go back to their arguments, unless an error stopped the run.
    Return(usize),
}
