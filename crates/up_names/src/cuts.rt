//! A text cut in two at a byte, and so at its first slash.
ghost use Rattle.std.specs.Prelude.{◌≡◌, ◌==◌, Some, None, if◌then◌else◌, position};
ghost use Rattle.std.specs.List.{list_any, before_first, after_first};
ghost use Rattle.std.specs.Option.{option_copied};
ghost use Rattle.up_names.specs.PathNames.{is_slash};

/// What stands before the first `mark`, and behind it where there is one.
#[tactic(auto, using(crate::proofs::CutLemmas::cuts))]
pub(crate) fn cut(text: &[u8], mark: u8) -> (&[u8], Option<&[u8]>)
    ensures before { result.0.now ≡ before_first (λ b. b == mark) text.now }
    ensures behind { option_copied result.1
        ≡ (if list_any (λ b. b == mark) text.now
        then Some (after_first (λ b. b == mark) text.now)
        else None) }
{
    match place_of(text, mark) {
        Some(place) => (&text[..place], Some(&text[place + 1..])),
        None => (text, None),
    }
}

/// What stands before the first slash of a path's text, its owner, and what stands behind that slash where there is one.
pub fn cut_at_slash(text: &[u8]) -> (&[u8], Option<&[u8]>)
    ensures before { result.0.now ≡ before_first is_slash text.now }
    ensures behind { option_copied result.1
        ≡ (if list_any is_slash text.now then Some (after_first is_slash text.now) else None) }
{
    cut(text, b'/')
}

fn place_of(text: &[u8], mark: u8) -> Option<usize>
    ensures { result ≡ position (λ b. b == mark) text.now }
{
    text.iter().position(|b| *b == mark)
}
