use automata::arrow::Arrow;

// A call on a draft, as data. States and letters are any numbers, values any codes.
#[derive(Clone, Copy, PartialEq, Eq, Debug)]
pub enum Call {
    // add a state with a value
    Grow(u8),
    // add an arrow
    Link(Arrow),
    // remove an arrow
    Unlink(Arrow),
    // make a state an entry state
    Enter(usize),
    // end that
    Leave(usize),
    // replace a state's value
    Rate { state: usize, value: u8 },
}

// What an accepted call answers. As an option, None would have to mean that the call is done.
#[derive(Clone, Copy, PartialEq, Eq, Debug)]
pub enum Answer {
    // the number of the state that was added
    State(usize),
    Done,
}
