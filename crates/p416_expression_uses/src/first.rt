// Of the rules that are broken the first one counts.
ghost use Rattle.std.specs.Prelude.{◌≡◌, Some};
ghost use Rattle.p416_expression_uses.specs.First.{lower};

use p416_syntax::ProgramRule;

/// The lower one of this rule and another, where there is another.
fn lower_of(rule: ProgramRule, other: Option<ProgramRule>) -> Option<ProgramRule>
    ensures { result ≡ lower (Some rule) other }
{
    match other {
        Some(other) => {
            if rule.number() <= other.number() {
                Some(rule)
            } else {
                Some(other)
            }
        }
        None => Some(rule),
    }
}

/// Of two rules the one with the lower number; where only one is there, that one.
pub fn lower(first: Option<ProgramRule>, second: Option<ProgramRule>) -> Option<ProgramRule>
    ensures { result ≡ lower first second }
{
    match first {
        Some(rule) => lower_of(rule, second),
        None => second,
    }
}
