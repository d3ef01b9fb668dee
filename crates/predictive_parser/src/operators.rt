// Operators by their powers.
ghost use Rattle.std.specs.Prelude.{◌≡◌};
ghost use Rattle.predictive_parser.specs.Operators.{behind_operator, may_follow};

use crate::symbol::Symbol;

/// Whether an operator of this power may come next behind an operand, where operators may that bind at least so tightly
/// as `least` and at most so as `most`.
pub fn may_follow(least: u8, most: u8, power: u8) -> bool
    ensures { result ≡ may_follow least most power }
{
    least <= power && power <= most
}

/// What stands behind an operator: the word of its operand, the action that joins the two, and the word of the operators
/// that may come next.
pub fn behind_operator<C, A, W>(operand: W, put: A, operators: W) -> [Symbol<C, A, W>; 3]
    ensures { result ≡ behind_operator operand put operators }
{
    [
        Symbol::Word(operand),
        Symbol::Put(put),
        Symbol::Word(operators),
    ]
}
