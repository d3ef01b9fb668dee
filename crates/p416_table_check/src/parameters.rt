// The parameters of actions: those with a direction come first (P4_16 1.2, "Actions").
ghost use Rattle.std.specs.Prelude.{◌≡◌, ◌&&◌};
ghost use Rattle.p416_syntax.specs.Tables.{is_directed_parameter, is_behind};

use p416_syntax::Param;

/// Whether a parameter has a direction.
fn is_directed(parameter: &Param) -> bool
    ensures { result ≡ is_directed_parameter parameter.now }
{
    parameter.direction.is_some()
}

/// Whether both hold.
fn are_both(first: bool, second: bool) -> bool
    ensures { result ≡ (first && second) }
{
    first && second
}

/// Whether a parameter with a direction stands behind one without: what T9 asks of an action's parameters, exactly. In
/// time linear in the parameters.
#[tactic(auto, using(crate::proofs::Behind::behind_now, crate::proofs::Behind::found_now))]
pub fn is_behind(parameters: &[Param]) -> bool
    ensures { result ≡ is_behind parameters.now }
{
    let mut undirected = false;
    for parameter in parameters {
        let directed = is_directed(parameter);
        if are_both(undirected, directed) {
            return true;
        }
        undirected = !directed;
    }
    false
}
