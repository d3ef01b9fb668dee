// Names with the names of the actions that tables list.
ghost use Rattle.std.specs.Prelude.{◌≡◌, ◌||◌, [], IfOk, OnOk};
ghost use Rattle.std.specs.List.{list_any};
ghost use Rattle.p416_listed_check.specs.Pairs.{Pair, shown_pair, is_same_pair, is_listed_pair};

use indexmap::IndexSet;
use p4x_bits::OutOfMemory;
use p416_syntax::ActionName;
use std::alloc::Global;
use std::marker::Model;

/// Names with those of actions, each pair once. Contracts see the list of them.
#[derive(Drop)]
pub struct PairSet<'a> {
    set: IndexSet<(&'a [u8], &'a [u8])>,
}

impl<'a> Model for PairSet<'a> {
    ghost use Rattle.std.specs.Prelude.{List, map};
    ghost use Rattle.p416_listed_check.specs.Pairs.{Pair, shown_pair};

    ghost Value = { List Pair };

    ghost view = { λ s. map shown_pair s.set.keys };
}

/// A name and that of an action.
fn pair_of<'a>(called: &'a [u8], action: &'a [u8]) -> (&'a [u8], &'a [u8])
    ensures { shown_pair result ≡ (called.now, action.now) }
{
    (called, action)
}

impl<'a> PairSet<'a> {
    /// No pairs. It takes no memory until one is added.
    pub fn new(alloc: Global) -> Self
        ensures { result ≡ [] }
    {
        PairSet {
            set: IndexSet::new(alloc),
        }
    }

    /// Whether a pair is there.
    pub fn has(&self, called: &[u8], action: &[u8]) -> bool
        ensures { result ≡ list_any (is_same_pair (called.now, action.now)) self.now }
    {
        let key = pair_of(called, action);
        self.set.contains(&key)
    }

    /// Puts a pair there. The one error is want of memory.
    fn add(&mut self, called: &'a [u8], action: &'a [u8]) -> Result<(), OutOfMemory>
        ensures { OnOk result ((p : Pair) → list_any (is_same_pair p) self.new ≡ (list_any (is_same_pair p) self.old || is_same_pair p (called.now, action.now))) }
    {
        let key = pair_of(called, action);
        self.set.insert_full(key)?;
        Ok(())
    }
}

/// Puts a name there with an action; `NoAction` is none.
fn add_action<'a>(
    set: &mut PairSet<'a>,
    called: &'a [u8],
    action: &'a ActionName,
) -> Result<(), OutOfMemory>
    ensures { OnOk result ((p : Pair) → list_any (is_same_pair p) set.new ≡ (list_any (is_same_pair p) set.old || is_listed_pair p called.now action.now)) }
{
    match action {
        ActionName::Declared(name) => set.add(called, name.as_slice()),
        ActionName::NoAction => Ok(()),
    }
}

/// Puts a name there with each of these actions; `NoAction` is none. The one error is want of memory.
pub fn add_actions<'a>(
    set: &mut PairSet<'a>,
    called: &'a [u8],
    actions: &'a [ActionName],
) -> Result<(), OutOfMemory>
    ensures { OnOk result ((p : Pair) → list_any (is_same_pair p) set.new ≡ (list_any (is_same_pair p) set.old || list_any (is_listed_pair p called.now) actions.now)) }
{
    for action in actions {
        add_action(set, called, action)?;
    }
    Ok(())
}
