// How far parsing has come.
use p414_ready_parser::Next;
use p414_sem::Parsed;

/// Behind some statements: the element that was extracted last; or how parsing ended.
#[derive(Clone, Copy, PartialEq, Eq, Drop)]
pub enum Going {
    /// It goes on.
    On(u32),
    /// It ended.
    Stopped(Parsed),
}

/// Behind a state: where parsing goes on; or how it ended.
#[derive(Clone, Copy, PartialEq, Eq, Drop)]
pub enum GoingTo {
    /// It goes on there.
    To(Next),
    /// It ended.
    Ended(Parsed),
}
