// Whatever has a written form.
ghost use Rattle.std.specs.Prelude.{◌≡◌, ℕ, List, ◌∷◌, length, decimal};
ghost use Rattle.fields.specs.Writing.{capped, PutsCut};
ghost use Rattle.fields.specs.Written.{write_fault_number, Wrote};

use crate::writing::Writer;

// Why nothing is written.
#[derive(Clone, Copy, PartialEq, Eq, Debug)]
pub enum WriteFault {
    // the slice is shorter than the text
    NoRoom,
}

impl WriteFault {
    // The number by which the refusal is known. A method: `u8::from(fault)` at a call would not say which number is meant.
    pub fn number(self) -> u8
        ensures { result ≡ write_fault_number self }
    {
        match self {
            WriteFault::NoRoom => 26,
        }
    }
}

// `Display` would not do here: its contract leaves open whether `fmt` succeeds, and so when a text is refused.
pub trait Written {
    // the bytes that are written
    ghost text: { Self → List ℕ };

    // Puts the text, as much of it as there is room for, and counts it all.
    fn put(&self, out: &mut Writer<'_>)
        ensures { PutsCut out.old out.new (text self.now) };

    // How many bytes the text has, or the largest `usize` where they are more.
    final fn written_len(&self) -> usize
        ensures { result ≡ capped (length (text self.now)) }
    {
        let mut measure = Writer::new(&mut []);
        self.put(&mut measure);
        measure.len()
    }

    // Writes the text to the front of `out` and answers its length. Where `out` is too short, nothing is written.
    final fn write(&self, out: &mut [u8]) -> Result<usize, WriteFault>
        ensures { Wrote (text self.now) out.old out.new result }
    {
        if self.written_len() > out.len() {
            return Err(WriteFault::NoRoom);
        }
        let mut writer = Writer::new(out);
        self.put(&mut writer);
        Ok(writer.len())
    }
}

// A number in decimal digits.
#[derive(Clone, Copy, PartialEq, Eq, Debug)]
pub struct Number(pub usize);

impl Written for Number {
    ghost text = { λ n. decimal n.0 };

    fn put(&self, out: &mut Writer<'_>) {
        // a cast: std has no From<usize> for u64
        out.put_number_cut(self.0 as u64);
    }
}

// A number as a field of a line: behind a tab.
#[derive(Clone, Copy, PartialEq, Eq, Debug)]
pub struct Field(pub usize);

impl Written for Field {
    ghost text = { λ f. 9 ∷ decimal f.0 };

    fn put(&self, out: &mut Writer<'_>) {
        out.put_cut(b"\t");
        Number(self.0).put(out);
    }
}
