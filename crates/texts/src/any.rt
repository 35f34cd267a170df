ghost use Rattle.std.specs.Prelude.{◌≡◌};
ghost use Rattle.texts.specs.Any.{letter_of_draft, held_by};

use crate::letters::KindLetter;
use automata::automaton::Automaton;
use drafts::draft::Draft;
use kinds::marks::M;
use kinds::rank::R;
use kinds::yes_no::Y;

// A draft of a kind that has a letter.
#[derive(Clone, Copy)]
pub enum AnyDraft {
    OfY(Draft<Y>),
    OfR(Draft<R>),
    OfM(Draft<M>),
}

// Evaluates the same expression for the draft of whichever kind is there.
#[macro_export]
macro_rules! for_any_kind {
    ($value:expr, $draft:pat => $result:expr) => {
        match $value {
            $crate::any::AnyDraft::OfY($draft) => $result,
            $crate::any::AnyDraft::OfR($draft) => $result,
            $crate::any::AnyDraft::OfM($draft) => $result,
        }
    };
}

impl AnyDraft {
    // One arm for each kind: a trait of the kinds that have a letter would need as many impls.
    pub fn letter(&self) -> KindLetter
        ensures { result ≡ letter_of_draft self.now }
    {
        match self {
            AnyDraft::OfY(_) => KindLetter::Y,
            AnyDraft::OfR(_) => KindLetter::R,
            AnyDraft::OfM(_) => KindLetter::M,
        }
    }

    // What the draft holds.
    pub fn automaton(&self) -> &Automaton
        ensures { result.now ≡ held_by self.now }
    {
        for_any_kind!(self, draft => draft.automaton())
    }
}
