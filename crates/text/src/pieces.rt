// Bytes cut at a mark: lines at a line feed, fields at a comma.
ghost use Rattle.std.specs.Prelude.{◌≡◌, ◌∷◌};
ghost use Rattle.text.specs.Pieces.{pieces, pieces_left};

// The first piece, and what follows its mark.
pub fn cut<'a>(bytes: &'a [u8], mark: u8) -> (&'a [u8], Option<&'a [u8]>)
    ensures { pieces mark bytes.now ≡ result.0.now ∷ pieces_left mark result.1 }
{
    match bytes.iter().position(|byte| *byte == mark) {
        Some(n) => (&bytes[..n], Some(&bytes[n + 1..])),
        None => (bytes, None),
    }
}
