ghost use Rattle.std.specs.Prelude.{◌≡◌, ◌+◌, ◌^◌, ◌<◌, length, decimal};

// Texts put one after another into a slice that the caller lends.
// A run of puts over an empty slice measures a text, and the same run over enough room writes it.
// A slice and a length, since it works in memory that is lent, and without a heap.
#[derive(Drop)]
pub struct Writer<'a> {
    out: &'a mut [u8],
    // the bytes put so far, with those that had no room, or the largest `usize` where they are more
    len: usize,
    ghost within: { len < 2 ^ 64 },
    // no slice has more bytes
    ghost short: { length out.now < 2 ^ 63 },
}

impl<'a> Writer<'a> {
    ghost use Rattle.fields.specs.Writing.{Puts, PutsCut};

    pub fn new(out: &'a mut [u8]) -> Writer<'a>
        ensures loan { result.out.ghost_name ≡ out.entry.ghost_name }
        ensures kept { result.out.now ≡ out.old }
        ensures len { result.len ≡ 0 }
    {
        Writer { out, len: 0 }
    }

    // A writer that goes on where `len` bytes were put before, be that past the end.
    pub fn at(out: &'a mut [u8], len: usize) -> Writer<'a>
        ensures loan { result.out.ghost_name ≡ out.entry.ghost_name }
        ensures kept { result.out.now ≡ out.old }
        ensures len { result.len ≡ len }
    {
        Writer { out, len }
    }

    pub fn len(&self) -> usize
        ensures { result ≡ self.now.len }
    {
        self.len
    }

    // Puts the bytes of `piece` behind those put so far, all of them or, where the slice is too short, none.
    pub fn put(&mut self, piece: &[u8])
        ensures puts { Puts self.old self.new piece.now }
        ensures kept { length self.old.out.now < self.old.len + length piece.now → self.new.out.now ≡ self.old.out.now }
    {
        let end = self.len.saturating_add(piece.len());
        if end <= self.out.len() {
            self.out[self.len..end].copy_from_slice(piece);
        }
        self.len = end;
    }

    // Puts the bytes of `piece` behind those put so far, as many as there is room for, and counts them all.
    pub fn put_cut(&mut self, piece: &[u8])
        ensures { PutsCut self.old self.new piece.now }
    {
        let start = self.len;
        let room = self.out.len().saturating_sub(start);
        // mostly there is room for all of it, or, where a text is measured, for none
        if piece.len() <= room || room == 0 {
            self.put(piece);
        } else {
            self.put(&piece[..room]);
            self.len = start.saturating_add(piece.len());
        }
    }

    // Puts the decimal digits of `n`, as `put` does.
    pub fn put_number(&mut self, n: u64)
        ensures puts { Puts self.old self.new (decimal n) }
        ensures kept { length self.old.out.now < self.old.len + length (decimal n) → self.new.out.now ≡ self.old.out.now }
    {
        self.put(itoa::Buffer::new().format(n).as_bytes());
    }

    // Puts the decimal digits of `n`, as `put_cut` does.
    pub fn put_number_cut(&mut self, n: u64)
        ensures { PutsCut self.old self.new (decimal n) }
    {
        self.put_cut(itoa::Buffer::new().format(n).as_bytes());
    }
}
