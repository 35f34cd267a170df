ghost use Rattle.std.specs.Prelude.{◌≡◌, true, is_err, IfOk, OnOk};
ghost use Rattle.drafts.specs.Calls.{answer, outcomes, after_all};
ghost use Rattle.drafts.specs.Drawn.{drawn, Made};

use crate::calls::{Answer, Call};
use crate::draft::Draft;
use crate::faults::CallFault;
use kinds::kind::Kind;
use std::alloc::{AllocError, Global};

impl<K: Kind> Draft<K> {
    // Makes one call that is given as data.
    pub fn apply(&mut self, call: Call) -> Result<Answer, CallFault>
        ensures { Made K.model call (answer (drawn self.old) call) self.old self.new result }
    {
        // a match: a call is data, listed and compared as no closure can be
        match call {
            Call::Grow(value) => self.grow(value).map(Answer::State),
            Call::Link(arrow) => self.link(arrow).map(|()| Answer::Done),
            Call::Unlink(arrow) => self.unlink(arrow).map(|()| Answer::Done),
            Call::Enter(state) => self.enter(state).map(|()| Answer::Done),
            Call::Leave(state) => self.leave(state).map(|()| Answer::Done),
            Call::Rate { state, value } => self.rate(state, value).map(|()| Answer::Done),
        }
    }

    // Makes each call of a list on what the one before left, refused or not, and answers what each
    // answered. Where there is no memory for the answers, no call is made.
    pub fn apply_all(
        &mut self,
        heap: Global,
        calls: &[Call],
    ) -> Result<Vec<Result<Answer, CallFault>>, AllocError>
        ensures answers { IfOk result (λ v. v.items ≡ outcomes K.model (drawn self.old) calls.now) }
        ensures left { OnOk result (drawn self.new ≡ after_all K.model (drawn self.old) calls.now) }
        ensures kept { is_err result ≡ true → self.new ≡ self.old }
    {
        // the room first, so that no call is made where there is none
        let mut answers = Vec::with_capacity(heap, calls.len())?;
        for call in calls {
            let answer = self.apply(*call);
            answers.push(answer)?;
        }
        Ok(answers)
    }
}
