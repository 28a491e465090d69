// Text put together in lent bytes, and numbers in decimal.
ghost use Rattle.std.specs.Prelude.{◌≡◌, [], ◌∷◌};
ghost use Rattle.text.specs.Text.{text_of, PutDecimal};
ghost use Rattle.text.specs.Writing.{written, Puts};
ghost use Rattle.text.specs.Digits.{decimal};

// Lent bytes, of which the first `len` are text.
// Kept: the bytes are lent, and a put can't fail; a String or a Vec would ask for memory.
#[derive(Drop)]
pub struct Writer<'a> {
    pub bytes: &'a mut [u8],
    pub len: usize,
}

impl<'a> Writer<'a> {
    // Behind the text of that length.
    pub fn after(bytes: &'a mut [u8], len: usize) -> Writer<'a>
        ensures same { result.bytes.ghost_name ≡ bytes.entry.ghost_name }
        ensures text { written result ≡ text_of bytes.old len }
    {
        Writer { bytes, len }
    }

    pub fn new(bytes: &'a mut [u8]) -> Writer<'a>
        ensures same { result.bytes.ghost_name ≡ bytes.entry.ghost_name }
        ensures text { written result ≡ text_of bytes.old 0 }
    {
        Writer::after(bytes, 0)
    }

    // Puts x behind the text; nothing where not all of it has room.
    pub fn put(&mut self, x: &[u8])
        ensures { Puts self.old self.new (x.now ∷ []) }
    {
        if self.bytes.len().saturating_sub(self.len) < x.len() {
            return;
        }
        byte_slices::copy_in(self.bytes, self.len, x);
        self.len += x.len();
    }

    pub fn put_decimal(&mut self, v: u64)
        ensures pieces { Puts self.old self.new (decimal v ∷ []) }
        ensures fewest { PutDecimal self.old.bytes.now self.old.len v (written self.new) }
    {
        // Kept: a number of 64 bits has at most 20 digits; `write!` would ask for a sink that can fail, and a put can't.
        let mut digits = [0u8; 20];
        let k = io::decimal(v, &mut digits);
        self.put(&digits[..k]);
    }
}
