ghost use Rattle.fields.specs.Pieces.{Cuts, PieceLaws};

// The part of `text` before the first `separator` and the part after it, both parts of `text` itself.
// None where `separator` does not stand in `text`.
pub fn cut(text: &[u8], separator: u8) -> Option<(&[u8], &[u8])>
    ensures cuts { Cuts separator text.entry result }
    ensures laws { PieceLaws }
{
    let place = text.iter().position(|b| *b == separator)?;
    Some((&text[..place], &text[place + 1..]))
}
