// Texts that are cut at a byte.
ghost use Rattle.std.specs.Prelude.{◌≡◌, ◌==◌, ◌∷◌, ◌++◌, IfNone, IfSome};
ghost use Rattle.std.specs.List.{position};
ghost use Rattle.action_tables.specs.Cuts.{HasNo};

/// What stands before and after the first byte of this value, or `None` where there is none.
pub fn cut(text: &[u8], byte: u8) -> Option<(&[u8], &[u8])>
    ensures found { IfSome result (λ parts. text.now ≡ parts.0.now ++ byte ∷ parts.1.now) }
    ensures first { IfSome result (λ parts. HasNo byte parts.0.now) }
    ensures none { IfNone result (HasNo byte text.now) }
{
    let index = index_of(text, byte)?;
    Some((&text[..index], &text[index + 1..]))
}

// The index of the first byte of this value.
fn index_of(text: &[u8], byte: u8) -> Option<usize>
    ensures { result ≡ position (λ b. b == byte) text.now }
{
    text.iter().position(|b| *b == byte)
}
