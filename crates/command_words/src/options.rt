// The options of the commands.
ghost use Rattle.std.specs.Prelude.{◌≡◌, map, string_bytes, option_map};
ghost use Rattle.command_words.specs.Words.{no_options, once, with_option, options_in};
ghost use Rattle.command_words.specs.internal.Found.{options_of};

/// The values of the options that were found.
#[derive(Clone, Copy, Drop)]
pub(crate) struct Found<'a> {
    pub(crate) text: Option<&'a str>,
    pub(crate) sent: Option<&'a str>,
    pub(crate) report: Option<&'a str>,
    pub(crate) ports: Option<&'a str>,
    pub(crate) rule: Option<&'a str>,
    pub(crate) passes: Option<&'a str>,
}

// The value of an option that wasn't found before.
fn once<'a>(before: Option<&str>, value: &'a str) -> Option<&'a str>
    ensures { option_map (λ v. v.now) result ≡ once (option_map (λ v. v.now) before.entry) value.now }
{
    match before {
        Some(_) => None,
        None => Some(value),
    }
}

// The options with one more and its value; None where it is none, or was found before.
fn with_option<'a>(option: &str, value: &'a str, found: Found<'a>) -> Option<Found<'a>>
    ensures { option_map options_of result ≡ with_option option.now value.now (options_of found.entry) }
{
    let mut options = found;
    match option {
        "--text" => options.text = Some(once(found.text, value)?),
        "--sent" => options.sent = Some(once(found.sent, value)?),
        "--report" => options.report = Some(once(found.report, value)?),
        "--ports" => options.ports = Some(once(found.ports, value)?),
        "--rule" => options.rule = Some(once(found.rule, value)?),
        "--passes" => options.passes = Some(once(found.passes, value)?),
        _ => return None,
    }
    Some(options)
}

/// The options that the words are, each with its value behind it; `None` exactly where they are none.
pub(crate) fn read_options(words: &[String]) -> Option<Found<'_>>
    ensures { option_map options_of result ≡ options_in (map string_bytes words.now) no_options }
{
    let mut found = Found {
        text: None,
        sent: None,
        report: None,
        ports: None,
        rule: None,
        passes: None,
    };
    let mut rest = words;
    while let [option, value, behind @ ..] = rest {
        found = with_option(option.as_str(), value.as_str(), found)?;
        rest = behind;
    }
    if rest.is_empty() { Some(found) } else { None }
}
