use automata::automaton::Automaton;
use std::marker::PhantomData;

pub mod editing;
pub mod opening;
pub mod running;

// A draft: a nondeterministic automaton whose states carry values of the kind K.
#[derive_where(Clone, Copy)]
pub struct Draft<K> {
    automaton: Automaton,
    kind: PhantomData<K>,
}
