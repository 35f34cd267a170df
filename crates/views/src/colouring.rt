ghost use Rattle.std.specs.Prelude.{◌≡◌, ℕ, slice_index_or, slice_set};
ghost use Rattle.views.specs.Colourings.{plain, coloured};

use kinds::kind::Kind;

// A code for each of 128 places.
#[derive(Clone, Copy, PartialEq, Eq)]
pub struct Colouring {
    pub codes: [u8; 128],
}

impl Colouring {
    // One code in every place.
    pub fn plain(code: u8) -> Colouring
        ensures { result ≡ plain code }
    {
        Colouring { codes: [code; 128] }
    }

    // The code that `code` gives in each place below the count, and none in the others.
    pub(crate) fn of<K: Kind, F: Fn(usize) -> u8>(count: usize, code: F) -> Colouring
        requires { F.IsAlwaysCallable code }
        ensures { (f : ℕ → ℕ) → ((p r : ℕ) → F.post code p r → r ≡ f p) → result ≡ coloured K.model count f }
    {
        let mut codes = [K::none(); 128];
        // counted, and in place: `array::from_fn` would go through all 128 places, and `put` would copy them
        for p in 0..count.min(128) {
            codes[p] = code(p);
        }
        Colouring { codes }
    }

    // The code at a place; from place 128 on it is none.
    pub fn code<K: Kind>(&self, place: usize) -> u8
        ensures { result ≡ slice_index_or self.now.codes place K.model.none }
    {
        self.codes.get(place).copied().unwrap_or(K::none())
    }

    // The colouring with another code at one place; a place from 128 on changes nothing.
    pub fn put(mut self, place: usize, code: u8) -> Colouring
        ensures { result.codes ≡ slice_set self.codes place code }
    {
        // by get_mut: tried, and the proof did not close
        if place < 128 {
            self.codes[place] = code;
        }
        self
    }
}
