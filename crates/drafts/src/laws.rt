ghost use Rattle.drafts.specs.CallLaws.{CallLaws};
ghost use Rattle.automata.specs.Drafts.{DraftModel};
ghost use Rattle.drafts.specs.WordLaws.{WordLaws};

use kinds::kind::Kind;

// For every kind: lists of calls go on from one another, keep the signs and leave proper drafts, and
// a draft is drawn again by its canonical calls.
pub fn call_laws<K: Kind>()
    ensures { CallLaws K.Kind.model }
{}

// What every draft says of words, for every kind.
pub fn word_laws<K: Kind>()
    ensures { (d : DraftModel) → WordLaws K.Kind.model d }
{}
