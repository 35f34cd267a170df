ghost use Rattle.pressing.specs.Law.{LawOfPress};
ghost use Rattle.pressing.specs.Press.{PressLaws};

use kinds::kind::Kind;
use machines::machine::Machine;

// For every kind and every two sources, whatever the states of their machines are: the pressed table says what its
// source says, no machine that says the same reaches fewer states, and sources that say the same are pressed to one table.
pub fn press_laws<K: Kind, S, R>()
    ensures { PressLaws K.Kind.model S R }
{}

// The law of the press, for every kind, every two types of machines, and every list of calls: the
// pressed table says what its source says, no machine that says the same reaches fewer states, two
// sources are pressed to equal tables exactly if they say the same, and one way is enough exactly if
// words that no ending tells apart reach the same states.
pub fn law_of_press<K: Kind, M: Machine, N: Machine>()
    ensures { LawOfPress K.Kind.model M.State N.State }
{}
