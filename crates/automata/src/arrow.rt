// An arrow of an automaton: from a state, by a letter, to a state.
#[derive(Clone, Copy, PartialEq, Eq, Debug)]
pub struct Arrow {
    pub from: usize,
    pub letter: usize,
    pub to: usize,
}
