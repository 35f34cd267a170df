ghost use Rattle.std.specs.Prelude.{◌≡◌, ℕ, if◌then◌else◌, Some, None, slice_index};
ghost use Rattle.automata.specs.Sets.{has};
ghost use Rattle.automata.specs.Drafts.{size, is_state};
ghost use Rattle.automata.specs.Shown.{shown};

use crate::arrow::Arrow;
use crate::automaton::Automaton;
use crate::sets::StateSet;
use crate::signs::Signs;

impl Automaton {
    pub fn state_count(&self) -> usize
        ensures { result ≡ size (shown self.now) }
    {
        self.count
    }

    pub fn signs(&self) -> &[u8]
        ensures { result.now ≡ (shown self.now).signs }
    {
        self.signs.as_slice()
    }

    // The signs whole, as they were checked.
    pub fn sign_list(&self) -> Signs
        ensures { result ≡ self.now.signs }
    {
        self.signs
    }

    // The code of a state, where there is such a state.
    pub fn code(&self, state: usize) -> Option<u8>
        ensures { result ≡ (if is_state (shown self.now) state then Some (slice_index (shown self.now).values state) else None) }
    {
        self.rows[..self.count].get(state).map(|row| row.code)
    }

    // The set of the entry states.
    pub fn entries(&self) -> StateSet
        ensures { (p : ℕ) → has result p ≡ (shown self.now).entry p }
    {
        self.entry_set
    }

    pub fn is_entry(&self, state: usize) -> bool
        ensures { result ≡ (shown self.now).entry state }
    {
        self.entries().has(state)
    }

    // The set of the ends of the arrows from a state by a letter; no state where there is no such state or letter.
    pub fn ends(&self, from: usize, letter: usize) -> StateSet
        ensures { (q : ℕ) → has result q ≡ (shown self.now).arrow from letter q }
    {
        self.rows
            .get(from)
            .map_or(StateSet::empty(), |row| row.ends(letter))
    }

    pub fn has_arrow(&self, arrow: Arrow) -> bool
        ensures { result ≡ (shown self.now).arrow arrow.from arrow.letter arrow.to }
    {
        self.ends(arrow.from, arrow.letter).has(arrow.to)
    }
}
