// What is kept of statements.
use p4x_bits::Rows;
use p414_ready_conditions::ReadyCondition;

/// The label of a branch behind `apply` (P4_14 1.0.5, "Packet Processing and Control Flow").
#[derive(Clone, Copy, PartialEq, Eq, Drop)]
pub enum ReadyLabel {
    /// `hit`.
    Hit,
    /// `miss`.
    Miss,
    /// `default`.
    Default,
    /// An action, by its number in the order of declaration; none where the name isn't that of an action.
    Action(Option<u32>),
}

/// A statement, a list of statements, what stands behind an `if` block, or a list of branches, by itself. What stands within it
/// follows: the first part right behind it, and where there are two, the second one behind all that stands within the first.
pub enum ControlNode {
    /// Nothing is done.
    Nothing,
    /// Two parts, one after the other. The number says how many nodes the first one has.
    Both(u32),
    /// A table is applied, by its number in the order of the names of all tables.
    Apply(u32),
    /// A table is applied, and one part, a list of branches, follows. The numbers are those of the actions that branches name.
    ApplyBranches(u32, Rows<u32>),
    /// The second part is no list of branches.
    NoBranches,
    /// The first of two parts where a condition holds, and else the second. The number says how many nodes the first one has.
    If(ReadyCondition, u32),
    /// The control with this number, in the order of declaration; none where the name isn't that of a control.
    Call(Option<u32>),
    /// One part.
    Inner,
    /// Of two parts the first where the label isn't taken, and else the second. The number says how many nodes the first one has.
    Branch(ReadyLabel, u32),
}

impl Drop for ControlNode {
    fn drop(self) {
        match self {
            ControlNode::Nothing => {}
            ControlNode::Both(_a) => {}
            ControlNode::Apply(_a) => {}
            ControlNode::ApplyBranches(_a, _b) => {}
            ControlNode::NoBranches => {}
            ControlNode::If(_a, _b) => {}
            ControlNode::Call(_a) => {}
            ControlNode::Inner => {}
            ControlNode::Branch(_a, _b) => {}
        }
    }
}
