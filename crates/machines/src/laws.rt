ghost use Rattle.machines.specs.BuildLaws.{BuildLaws};

// For every two machines, whatever their states are: a built table says what its machine says, each machine has one
// table, machines that are alike have the same one, its count is the number of states reached, and it is there
// where finitely many states are reached.
pub fn build_laws<S, R>()
    ensures { BuildLaws S R }
{}
