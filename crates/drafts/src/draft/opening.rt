ghost use Rattle.std.specs.Prelude.{◌≡◌};
ghost use Rattle.automata.specs.Drafts.{fresh};
ghost use Rattle.drafts.specs.Drawn.{drawn, Opened};
ghost use Rattle.automata.specs.Shown.{sign_bytes};

use crate::draft::Draft;
use automata::automaton::Automaton;
use automata::faults::SignFault;
use automata::signs::Signs;
use kinds::kind::Kind;
use std::marker::PhantomData;

impl<K: Kind> Draft<K> {
    // A draft with these signs and no state.
    pub fn open(signs: &[u8]) -> Result<Draft<K>, SignFault>
        ensures { Opened signs.now result }
    {
        let signs = Signs::new(signs)?;
        Ok(Draft::fresh(signs))
    }

    // A draft with signs that are acceptable already, and no state.
    pub fn fresh(signs: Signs) -> Draft<K>
        ensures { drawn result ≡ fresh (sign_bytes signs) }
    {
        Draft {
            automaton: Automaton::fresh(signs),
            kind: PhantomData,
        }
    }

    // What the draft holds.
    pub fn automaton(&self) -> &Automaton
        ensures { result.now ≡ self.now.automaton }
    {
        &self.automaton
    }
}
