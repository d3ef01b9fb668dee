// The rows of a transition that is ready to run (P4_16 1.2, "Transition statements", "Select expressions").
use p4x_bits::Rows;
use v1_core::ParserError;

/// Where parsing goes on.
#[derive(Clone, Copy, Drop)]
pub enum Next {
    /// In the state with this number, from 0 in the order of the text.
    State(u32),
    /// Nowhere: parsing ends without an error, with `accept` as with `reject`.
    End,
}

/// Which keys a part of a case takes.
#[derive(Clone, Copy, Drop)]
pub enum KeyTest {
    /// Each one.
    Any,
    /// None.
    Never,
    /// Bits with this number.
    Number(u128),
    /// This truth value.
    Truth(bool),
    /// Those whose number has these bits on a mask.
    Masked {
        /// The mask.
        mask: u128,
        /// The bits on it.
        value: u128,
    },
    /// Those whose number is between two, both among them.
    Between {
        /// The least.
        low: u128,
        /// The greatest.
        high: u128,
    },
}

/// Which keys a case takes.
pub enum CaseTest {
    /// All.
    Any,
    /// As many keys as parts, of which each part takes the one at its place.
    Each(Rows<KeyTest>),
}

impl Drop for CaseTest {
    fn drop(self) {
        match self {
            CaseTest::Any => {}
            CaseTest::Each(_a) => {}
        }
    }
}

/// A case of a select.
#[derive(Drop)]
pub struct CaseRow {
    /// Which keys it takes.
    pub test: CaseTest,
    /// Where it leads.
    pub next: Next,
}

/// What a state ends with.
pub enum ReadyTransition {
    /// Always there.
    Go(Next),
    /// By the first case that takes the keys.
    Select {
        /// The places of the keys among the expressions.
        keys: Rows<usize>,
        /// The cases in order.
        rows: Rows<CaseRow>,
    },
}

impl Drop for ReadyTransition {
    fn drop(self) {
        match self {
            ReadyTransition::Go(_a) => {}
            ReadyTransition::Select {
                keys: _keys,
                rows: _rows,
            } => {}
        }
    }
}

/// Where a transition leads, or the error that ends parsing in place of that.
#[derive(Clone, Copy, Drop)]
pub enum Led {
    /// There.
    To(Next),
    /// The error.
    Failed(ParserError),
}
