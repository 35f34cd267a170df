ghost use Rattle.texts.specs.TextLaws.{TextLaws};

// A text is read exactly if it spells a kind, acceptable signs and accepted calls, and what is
// written of a draft reads back.
pub fn text_laws()
    ensures { TextLaws }
{}
