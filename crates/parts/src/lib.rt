// A text in parts, between lines that are `-` alone.
#![tactic(auto)]

ghost use Rattle.std.specs.Prelude.{◌≡◌, true};
ghost use Rattle.parts.specs.Parts.{FirstMark, before_mark, after_mark, bytes_if_any, Cuts, is_one_line};

// The first part, and what follows the line `-` behind it; no rest where there is no such line.
pub fn cut_part<'a>(text: &'a [u8]) -> (&'a [u8], Option<&'a [u8]>)
    ensures part { result.0.now ≡ before_mark true text.now }
    ensures rest { bytes_if_any result.1 ≡ after_mark true text.now }
    ensures whole { Cuts text.now result.0.now (bytes_if_any result.1) }
{
    if let [b'-', b'\n', rest @ ..] = text {
        return (&text[..0], Some(rest));
    }
    match first_mark(text) {
        Some(i) => (&text[..i + 1], Some(&text[i + 3..])),
        None => (text, None),
    }
}

fn first_mark(text: &[u8]) -> Option<usize>
    ensures { FirstMark text.now result }
{
    text.windows(3).position(|bytes| matches!(bytes, b"\n-\n"))
}

// Whether there is just one line feed.
pub fn is_one_line(text: &[u8]) -> bool
    ensures { result ≡ is_one_line text.now }
{
    text.iter().filter(|byte| **byte == b'\n').count() == 1
}
