ghost use Rattle.views.specs.ViewLaws.{ViewLaws};

use kinds::kind::Kind;

// For every kind, draft and table: read forward, a word gets its own value; read backward, it gets
// the value of the word turned round, and the state says so from each state of the draft or the table.
pub fn view_laws<K: Kind>()
    ensures { ViewLaws K K.Kind.model }
{}
