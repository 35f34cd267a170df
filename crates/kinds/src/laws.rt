ghost use Rattle.kinds.specs.JoinLaws.{JoinLaws};

use crate::kind::Kind;

// What joins of any codes keep, for every kind: they are admitted, their order and grouping do not
// matter, and none joins without effect.
pub fn join_laws<K: Kind>()
    ensures { JoinLaws K.Kind.model }
{}
