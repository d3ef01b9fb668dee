// The labels of a list of branches that is open.
ghost use Rattle.std.specs.Prelude.{◌≡◌, [], ◌∷◌, ◌++◌, IfOk};
ghost use Rattle.p414_syntax.specs.Conditions.{is_outcome};
ghost use Rattle.p414_reader.specs.internal.Classes.{may_follow};

use p4x_bits::{OutOfMemory, Rows, Text};
use p414_syntax::Keyword;
use std::alloc::Global;
use std::collections::BTreeSet;
use std::marker::Model;

/// Labels, as they are read. Contracts see the list of their texts.
pub struct Labels {
    texts: Rows<Text>,
    seen: BTreeSet<Vec<u8>>,
    has_outcome: bool,
    has_other: bool,
}

impl Drop for Labels {
    fn drop(self) {
        let Labels {
            texts: _texts,
            seen: _seen,
            has_outcome: _has_outcome,
            has_other: _has_other,
        } = self;
    }
}

impl Model for Labels {
    ghost use Rattle.std.specs.Prelude.{ℕ, List};
    ghost use Rattle.p414_reader.specs.internal.Labels.{IsRecord};

    ghost Value = { List (List ℕ) };

    ghost view = { λ l. l.texts };

    ghost invariant = { λ l. IsRecord l.texts l.seen l.has_outcome l.has_other };
}

impl Labels {
    /// No labels.
    pub fn new(alloc: Global) -> Self
        ensures { result ≡ [] }
    {
        Labels {
            texts: Rows::new(alloc),
            seen: BTreeSet::new(alloc),
            has_outcome: false,
            has_other: false,
        }
    }

    /// Whether the label stands not among these yet, and `hit` and `miss` stand with no other.
    pub fn may_follow(&self, text: &[u8]) -> bool
        ensures { result ≡ may_follow self.now text.now }
    {
        let is_outcome = is_outcome(text);
        let is_mixed = (self.has_outcome || is_outcome) && (self.has_other || !is_outcome);
        !self.seen.contains(text) && !is_mixed
    }

    /// These labels and one more.
    pub fn with(self, alloc: Global, text: &[u8]) -> Result<Self, OutOfMemory>
        ensures { IfOk result (λ new. new ≡ self ++ text.now ∷ []) }
    {
        let Labels {
            mut texts,
            mut seen,
            has_outcome,
            has_other,
        } = self;
        texts.push(Text::from_slice(alloc, text)?)?;
        seen.insert(Vec::from_slice(alloc, text)?)?;
        let is_outcome = is_outcome(text);
        Ok(Labels {
            texts,
            seen,
            has_outcome: has_outcome || is_outcome,
            has_other: has_other || !is_outcome,
        })
    }
}

/// Whether the label is `hit` or `miss`.
pub fn is_outcome(text: &[u8]) -> bool
    ensures { result ≡ is_outcome text.now }
{
    text == Keyword::Hit.text() || text == Keyword::Miss.text()
}
