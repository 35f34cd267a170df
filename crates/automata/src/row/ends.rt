ghost use Rattle.std.specs.Prelude.{◌≡◌, slice_index_or, slice_set};
ghost use Rattle.automata.specs.Sets.{no_states};
ghost use Rattle.automata.specs.Held.{blank_row};

use crate::row::Row;
use crate::sets::StateSet;

impl Row {
    // The code 0 and no arrow.
    pub fn blank() -> Row
        ensures { result ≡ blank_row }
    {
        Row {
            code: 0,
            ends: [StateSet::empty(); 16],
        }
    }

    // The ends of the arrows by a letter; no state where there is no such letter.
    pub fn ends(&self, letter: usize) -> StateSet
        ensures { result ≡ slice_index_or self.now.ends letter no_states }
    {
        self.ends.get(letter).copied().unwrap_or(StateSet::empty())
    }

    // The row with these ends by a letter; the same row where there is no such letter.
    // Like `put` of a colouring: one function for both would be as long as each.
    // By value: tried with `&mut self`, whose call on a row in the array gets no proof.
    pub fn with_ends(mut self, letter: usize, ends: StateSet) -> Row
        ensures code { result.code ≡ self.code }
        ensures ends { result.ends ≡ slice_set self.ends letter ends }
    {
        if letter < 16 {
            self.ends[letter] = ends;
        }
        self
    }
}
