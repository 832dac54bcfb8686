//! Options and their values, among words.
ghost use Rattle.std.specs.Prelude.{◌≡◌, ◌<◌, ◌==◌, [], ◌∷◌, length, map, string_bytes, IfNone, IfSome};
ghost use Rattle.std.specs.Option.{option_copied};
ghost use Rattle.up_serve.specs.Plans.{are_pairs, at_most_once, is_option, once, values_of};

/// Whether words are pairs of an option and its value.
#[tactic(auto, using(crate::proofs::WordLemmas::few))]
pub fn are_pairs(words: &[String]) -> bool
    ensures { result ≡ are_pairs (map string_bytes words.now) }
{
    let mut left = words;
    while let Some((name, _, rest)) = next_pair(left) {
        if !is_option(name) {
            return false;
        }
        left = rest;
    }
    left.is_empty()
}

/// Whether a word is an option.
fn is_option(word: &str) -> bool
    ensures { result ≡ is_option word.now }
{
    matches!(
        word,
        "--listen"
            | "--host"
            | "--operator"
            | "--tree"
            | "--folder"
            | "--helper"
            | "--enrol"
            | "--peer"
            | "--connections"
            | "--feed"
            | "--feeds"
    )
}

/// The value of an option that stands once.
pub fn once<'a>(options: &'a [String], option: &str) -> Option<&'a str>
    ensures { option_copied result ≡ once (values_of option.now (map string_bytes options.now)) }
{
    let (value, rest) = next_value(options, option)?;
    match next_value(rest, option) {
        Some(_) => None,
        None => Some(value),
    }
}

/// The value of an option that stands at most once; empty where it is left out.
pub fn at_most_once<'a>(options: &'a [String], option: &str) -> Option<&'a str>
    ensures { option_copied result
        ≡ at_most_once (values_of option.now (map string_bytes options.now)) }
{
    match next_value(options, option) {
        Some(_) => once(options, option),
        None => Some(""),
    }
}

/// Whether an option does not stand.
pub fn lacks(options: &[String], option: &str) -> bool
    ensures { result ≡ (length (values_of option.now (map string_bytes options.now)) == 0) }
{
    next_value(options, option).is_none()
}

/// The first value of an option, and the words behind it.
#[tactic(auto, using(crate::proofs::WordLemmas::few))]
pub fn next_value<'a>(options: &'a [String], option: &str) -> Option<(&'a str, &'a [String])>
    ensures some { IfSome result (λ cut. values_of option.now (map string_bytes options.now)
        ≡ cut.0.now ∷ values_of option.now (map string_bytes cut.1.now)) }
    ensures none { IfNone result (values_of option.now (map string_bytes options.now) ≡ []) }
    ensures shorter { IfSome result (λ cut. length cut.1.now < length options.now) }
{
    let mut left = options;
    while let Some((name, value, rest)) = next_pair(left) {
        if name == option {
            return Some((value, rest));
        }
        left = rest;
    }
    None
}

/// The first two words, and those behind them.
fn next_pair(words: &[String]) -> Option<(&str, &str, &[String])>
    ensures some { IfSome result (λ cut.
        map string_bytes words.now ≡ cut.0.now ∷ cut.1.now ∷ map string_bytes cut.2.now) }
    ensures none { IfNone result (length words.now < 2) }
    ensures shorter { IfSome result (λ cut. length cut.2.now < length words.now) }
{
    match words {
        [name, value, rest @ ..] => Some((name.as_str(), value.as_str(), rest)),
        _ => None,
    }
}
