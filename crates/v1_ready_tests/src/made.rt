// What is made of the parts of an expression.
ghost use Rattle.std.specs.Prelude.{◌≡◌, ℕ, List};
ghost use Rattle.p416_syntax.specs.Heads.{of_exp_head};
ghost use Rattle.v1_core.specs.Ready.{Ready};
ghost use Rattle.v1_ready_blocks.specs.Nodes.{Tree};
ghost use Rattle.v1_ready_program.specs.internal.Coded.{seen_value, seen_parts, IsValueIn, ArePartsIn};
ghost use Rattle.v1_ready_tests.specs.internal.Coded.{made_over, all_over, parts_over, IsMadeAmong, AreMadeAmong, ArePartsAmong};
ghost use Rattle.v1_ready_tests.specs.internal.Passes.{as_ready, has_table, is_table, front_made, rest_made, no_made_parts, only_made, pair_made, three_made, parts_made, behind_made, ready_parts, has_tables};

use p416_syntax::ExpHead;
use v1_ready_program::build::Parts;
use work_stack::Stack;

/// What an expression is made as.
#[derive(Clone, Copy, Drop)]
pub enum Made {
    /// A ready expression by its place, where it has such a value: no table is applied in it.
    Plain(Option<usize>),
    /// A test by its place, where it has such a value; and whether the expression is itself the application of a table.
    Tested(bool, Option<usize>),
}

/// What at most three parts are made as.
#[derive(Clone, Copy, Drop)]
pub struct MadeParts {
    /// The first.
    pub first: Made,
    /// The second.
    pub second: Made,
    /// The third.
    pub third: Made,
}

/// Takes what the next part is made as; nothing where none is left.
fn take_made(made: &mut Stack<Made>) -> Made
    ensures made { (es : List Ready) (ts : List Tree) → made_over es ts result ≡ front_made (all_over es ts made.old) }
    ensures rest { (es : List Ready) (ts : List Tree) → all_over es ts made.new ≡ rest_made (all_over es ts made.old) }
    ensures within { (n m : ℕ) → AreMadeAmong n m made.old → IsMadeAmong n m result × AreMadeAmong n m made.new }
{
    match made.pop() {
        Some(made) => made,
        None => Made::Plain(None),
    }
}

/// Takes one part.
fn take_one(made: &mut Stack<Made>) -> MadeParts
    ensures parts { (es : List Ready) (ts : List Tree) → parts_over es ts result ≡ only_made (front_made (all_over es ts made.old)) }
    ensures rest { (es : List Ready) (ts : List Tree) → all_over es ts made.new ≡ rest_made (all_over es ts made.old) }
    ensures within { (n m : ℕ) → AreMadeAmong n m made.old → ArePartsAmong n m result × AreMadeAmong n m made.new }
{
    let first = take_made(made);
    MadeParts {
        first,
        second: Made::Plain(None),
        third: Made::Plain(None),
    }
}

/// Takes two parts.
fn take_two(made: &mut Stack<Made>) -> MadeParts
    ensures parts { (es : List Ready) (ts : List Tree) → parts_over es ts result ≡ pair_made (all_over es ts made.old) }
    ensures rest { (es : List Ready) (ts : List Tree) → all_over es ts made.new ≡ rest_made (rest_made (all_over es ts made.old)) }
    ensures within { (n m : ℕ) → AreMadeAmong n m made.old → ArePartsAmong n m result × AreMadeAmong n m made.new }
{
    let first = take_made(made);
    let second = take_made(made);
    MadeParts {
        first,
        second,
        third: Made::Plain(None),
    }
}

/// Takes three parts.
fn take_three(made: &mut Stack<Made>) -> MadeParts
    ensures parts { (es : List Ready) (ts : List Tree) → parts_over es ts result ≡ three_made (all_over es ts made.old) }
    ensures rest { (es : List Ready) (ts : List Tree) → all_over es ts made.new ≡ rest_made (rest_made (rest_made (all_over es ts made.old))) }
    ensures within { (n m : ℕ) → AreMadeAmong n m made.old → ArePartsAmong n m result × AreMadeAmong n m made.new }
{
    let first = take_made(made);
    let second = take_made(made);
    let third = take_made(made);
    MadeParts {
        first,
        second,
        third,
    }
}

/// No parts.
fn no_parts() -> MadeParts
    ensures parts { (es : List Ready) (ts : List Tree) → parts_over es ts result ≡ no_made_parts }
    ensures within { (n m : ℕ) → ArePartsAmong n m result }
{
    MadeParts {
        first: Made::Plain(None),
        second: Made::Plain(None),
        third: Made::Plain(None),
    }
}

/// Takes the parts of an expression.
pub fn take_parts(made: &mut Stack<Made>, head: ExpHead<'_>) -> MadeParts
    ensures parts { (es : List Ready) (ts : List Tree) → parts_over es ts result ≡ parts_made (of_exp_head head.entry) (all_over es ts made.old) }
    ensures rest { (es : List Ready) (ts : List Tree) → all_over es ts made.new ≡ behind_made (of_exp_head head.entry) (all_over es ts made.old) }
    ensures within { (n m : ℕ) → AreMadeAmong n m made.old → ArePartsAmong n m result × AreMadeAmong n m made.new }
{
    match head {
        ExpHead::Member(_, _) => take_one(made),
        ExpHead::Index(_, _) => take_one(made),
        ExpHead::Slice(_, _, _) => take_one(made),
        ExpHead::Call(_, _) => take_two(made),
        ExpHead::Lookahead(_, _, _) => take_two(made),
        ExpHead::Cast(_, _) => take_one(made),
        ExpHead::Unary(_, _) => take_one(made),
        ExpHead::Binary(_, _, _) => take_two(made),
        ExpHead::Choice(_, _, _) => take_three(made),
        ExpHead::Argument(_, _) => take_two(made),
        ExpHead::Listed(_) => take_one(made),
        _ => no_parts(),
    }
}

impl Made {
    /// The ready expression, where it is one.
    pub fn ready(self) -> Option<usize>
        ensures value { (es : List Ready) (ts : List Tree) → seen_value es result ≡ as_ready (made_over es ts self) }
        ensures within { (n m : ℕ) → IsMadeAmong n m self → IsValueIn n result }
    {
        match self {
            Made::Plain(place) => place,
            Made::Tested(_, _) => None,
        }
    }

    /// Whether a table is applied in it.
    fn has_table(self) -> bool
        ensures { (es : List Ready) (ts : List Tree) → result ≡ has_table (made_over es ts self) }
    {
        match self {
            Made::Plain(_) => false,
            Made::Tested(_, _) => true,
        }
    }

    /// Whether it is itself the application of a table.
    pub fn is_table(self) -> bool
        ensures { (es : List Ready) (ts : List Tree) → result ≡ is_table (made_over es ts self) }
    {
        match self {
            Made::Plain(_) => false,
            Made::Tested(own, _) => own,
        }
    }
}

impl MadeParts {
    /// The ready expressions among them.
    pub fn ready(self) -> Parts
        ensures parts { (es : List Ready) (ts : List Tree) → seen_parts es result ≡ ready_parts (parts_over es ts self) }
        ensures within { (n m : ℕ) → ArePartsAmong n m self → ArePartsIn n result }
    {
        let first = self.first.ready();
        let second = self.second.ready();
        let third = self.third.ready();
        Parts {
            first,
            second,
            third,
        }
    }

    /// Whether a table is applied in an expression with these parts, which itself is the application of a table or not.
    pub fn has_tables(self, own: bool, head: ExpHead<'_>) -> bool
        ensures { (es : List Ready) (ts : List Tree) → result ≡ has_tables own (of_exp_head head.entry) (parts_over es ts self) }
    {
        let first = self.first.has_table();
        let second = self.second.has_table();
        let third = self.third.has_table();
        match head {
            ExpHead::Member(_, _) => first,
            ExpHead::Index(_, _) => first,
            ExpHead::Slice(_, _, _) => first,
            ExpHead::Call(_, _) => own || first,
            ExpHead::Cast(_, _) => first,
            ExpHead::Unary(_, _) => first,
            ExpHead::Binary(_, _, _) => first || second,
            ExpHead::Choice(_, _, _) => first || second || third,
            _ => false,
        }
    }
}
