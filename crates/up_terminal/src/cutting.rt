//! Cuts bytes at the first LF.
ghost use Rattle.std.specs.Prelude.{◌≡◌, ◌<◌, ◌++◌, ◌∷◌, false, length, IfNone, IfSome};
ghost use Rattle.std.specs.List.{list_any};
ghost use Rattle.up_text.specs.Lines.{is_line_end};

use up_text::next_line;

/// The bytes before the first LF, and those behind it. `None` where there is none.
pub(crate) fn cut_line(bytes: &[u8]) -> Option<(&[u8], &[u8])>
    ensures cut { IfSome result (λ cut. bytes.now ≡ cut.0.now ++ 10 ∷ cut.1.now) }
    ensures unbroken { IfSome result (λ cut. list_any is_line_end cut.0.now ≡ false) }
    ensures none { IfNone result (list_any is_line_end bytes.now ≡ false) }
    ensures shorter { IfSome result (λ cut. length cut.1.now < length bytes.now) }
{
    let (line, behind) = next_line(bytes)?;
    if line.len() == bytes.len() {
        return None;
    }
    Some((line, behind))
}
