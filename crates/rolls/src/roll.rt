ghost use Rattle.std.specs.Prelude.{◌≡◌, ◌≤◌, length, replicate, take};
ghost use Rattle.rolls.specs.Rolls.{Addable, Different, Got, Placed, Searched};

use crate::fault::RollFault;
use crate::state::State;

// Different entries in a slice that the caller lends: the first `len` of them are in use.
// A slice and a length, since a roll works in memory that is lent, and without a heap.
#[derive(Drop)]
pub struct Roll<'a, T> {
    entries: &'a mut [T],
    len: usize,
    ghost within: { len ≤ length entries.now },
    ghost different: { Different entries.now len },
}

// Makes every entry blank.
fn wipe<T: State>(entries: &mut [T])
    ensures { entries.new ≡ replicate (length entries.old) T.blank }
{
    entries.fill_with(|| T::blank());
}

impl<'a, T: State> Roll<'a, T> {
    ghost use Rattle.rolls.specs.Loans.{KeepsLoan};

    // Takes the lent entries; all become blank, and none is in use.
    pub fn fresh(entries: &'a mut [T]) -> Roll<'a, T>
        ensures loan { result.entries.ghost_name ≡ entries.entry.ghost_name }
        ensures items { result.entries.now ≡ replicate (length entries.old) T.blank }
        ensures len { result.len ≡ 0 }
    {
        wipe(entries);
        Roll { entries, len: 0 }
    }

    // The same again on a roll in use.
    pub fn clear(&mut self)
        ensures kept { KeepsLoan self.old self.new }
        ensures items { self.new.entries.now ≡ replicate (length self.old.entries.now) T.blank }
        ensures len { self.new.len ≡ 0 }
    {
        self.len = 0;
        wipe(self.entries);
    }

    // How many entries are in use.
    pub fn len(&self) -> usize
        ensures { result ≡ self.now.len }
    {
        self.len
    }

    // How many entries were supplied.
    pub fn room(&self) -> usize
        ensures { result ≡ length self.now.entries.now }
    {
        self.entries.len()
    }

    // The entries in use.
    pub fn as_slice(&self) -> &[T]
        ensures { result.now ≡ take self.now.len self.now.entries.now }
    {
        &self.entries[..self.len]
    }

    // The entry numbered `i`, if it is in use.
    pub fn get(&self, i: usize) -> Option<&T>
        ensures { Got T.blank self.now.entries.now self.now.len i result }
    {
        self.as_slice().get(i)
    }

    // The number of the first entry in use that equals `x`, or none.
    fn position(&self, x: &T) -> Option<usize>
        ensures first { Searched x.now T.blank self.now.entries.now self.now.len result }
        ensures addable { Addable x.now self.now.entries.now self.now.len result }
    {
        self.as_slice().iter().position(|e| e.same(x))
    }

    // The number of the entry that equals `x`; where there is none, `x` is added at the end.
    // Refused where `x` is new and no supplied entry is free; the roll is then untouched.
    pub fn place(&mut self, x: T) -> Result<usize, RollFault>
        ensures kept { KeepsLoan self.old self.new }
        ensures placed { Placed x T.blank self.old.entries.now self.old.len self.new.entries.now self.new.len result }
    {
        if let Some(i) = self.position(&x) {
            return Ok(i);
        }
        // by get_mut and let-else: tried, and the proof did not close
        let n = self.len;
        if n < self.room() {
            self.entries[n] = x;
            self.len = n + 1;
            return Ok(n);
        }
        Err(RollFault::Full)
    }
}
