ghost use Rattle.std.specs.Prelude.{◌≡◌, ◌≤◌, ◌+◌, ◌∷◌, [], ◌==◌, length, position, MatchOption};
ghost use Rattle.lset_text.specs.Parts.{cut_at};

fn first_of(text: &[u8], byte: u8) -> Option<usize>
    ensures { result ≡ position (λ b. b == byte) text.now }
{
    text.iter().position(|b| *b == byte)
}

/// Splits a text at the first occurrence of `byte`. Returns the text before the byte and the text after the byte, or
/// `None` if `byte` does not occur. Reads no further than the byte.
pub fn cut(text: &[u8], byte: u8) -> Option<(&[u8], &[u8])>
    ensures parts { MatchOption result (cut_at byte text.now ≡ text.now ∷ [])
        (λ p. cut_at byte text.now ≡ p.0.now ∷ cut_at byte p.1.now) }
    ensures shorter { MatchOption result (0 ≤ 0) (λ p. length p.0.now + length p.1.now + 1 ≡ length text.now) }
{
    let at = first_of(text, byte)?;
    Some((&text[..at], &text[at + 1..]))
}
