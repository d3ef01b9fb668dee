// Names that are files apart.
ghost use Rattle.std.specs.Prelude.{◌≡◌, map};
ghost use Rattle.command_words.specs.Apart.{is_among, are_apart};

// Whether a name is one of the names.
fn is_among(name: &str, names: &[&str]) -> bool
    ensures { result ≡ is_among name.now (map (λ other. other.now) names.now) }
{
    for other in names {
        if name == *other {
            return true;
        }
    }
    false
}

/// Whether no output is an input or another output.
pub(crate) fn are_apart(inputs: &[&str], outputs: &[&str]) -> bool
    ensures { result ≡ are_apart (map (λ name. name.now) inputs.now) (map (λ name. name.now) outputs.now) }
{
    let mut rest = outputs;
    while let [out, behind @ ..] = rest {
        if is_among(out, inputs) || is_among(out, behind) {
            return false;
        }
        rest = behind;
    }
    true
}
