// Which of the branches behind an application runs.
ghost use Rattle.std.specs.Prelude.{◌≡◌, ◌==◌};
ghost use Rattle.std.specs.List.{list_any};
ghost use Rattle.p414_control_run.specs.Branches.{is_action, is_among, takes, takes_label};

use p414_ready_controls::ReadyLabel;
use p414_ready_tables::ReadyApplied;

/// What tells which of the branches behind an application runs.
#[derive(Clone, Copy, Drop)]
pub struct Taken {
    /// Whether the table hit.
    pub hit: bool,
    /// The action that ran, by its number; none where none ran.
    pub action: Option<u32>,
    /// Whether a branch names that action.
    pub named: bool,
}

/// Whether the action that ran is the one that a label names.
fn is_action(ran: Option<u32>, named: Option<u32>) -> bool
    ensures { result ≡ is_action ran named }
{
    match ran {
        Some(ran) => match named {
            Some(named) => ran == named,
            None => false,
        },
        None => false,
    }
}

/// Whether these have a number.
fn has_number(numbers: &[u32], number: u32) -> bool
    ensures { result ≡ list_any (λ n. number == n) numbers.now }
{
    numbers.iter().any(|found| number == *found)
}

/// Whether the action that ran is among those that branches name.
fn is_among(ran: Option<u32>, named: &[u32]) -> bool
    ensures { result ≡ is_among ran named.now }
{
    match ran {
        Some(ran) => has_number(named, ran),
        None => false,
    }
}

/// What is taken of an application, where branches name these actions.
pub fn taken_of(applied: ReadyApplied, named: &[u32]) -> Taken
    ensures { result ≡ record { hit = applied.hit; action = applied.action; named = is_among applied.action named.now } }
{
    Taken {
        hit: applied.hit,
        action: applied.action,
        named: is_among(applied.action, named),
    }
}

/// Whether the block with a label runs.
fn takes(taken: Taken, label: ReadyLabel) -> bool
    ensures { result ≡ takes taken label }
{
    match label {
        ReadyLabel::Hit => taken.hit,
        ReadyLabel::Miss => !taken.hit,
        ReadyLabel::Default => !taken.named,
        ReadyLabel::Action(named) => is_action(taken.action, named),
    }
}

/// The same; outside of branches none runs.
pub fn takes_label(taken: Option<Taken>, label: ReadyLabel) -> bool
    ensures { result ≡ takes_label taken label }
{
    match taken {
        Some(taken) => takes(taken, label),
        None => false,
    }
}
