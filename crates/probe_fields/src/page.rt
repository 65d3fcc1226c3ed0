// The page that results are written over. A piece for which it has no room is not written.
ghost use Rattle.std.specs.Prelude.{◌≡◌, ◌-◌, ℕ, List, [], ◌∷◌, length, min, take};
ghost use Rattle.hex_digits.specs.Hex.{digits};
ghost use Rattle.hex_digits.specs.Write.{Put};
ghost use Rattle.probe_fields.specs.Page as spec;

// Lent bytes, and the place past those that are written.
// A place beside the whole slice, not a slice of what is left: `written` and `truncate` go back to its start.
// `same_reference` stands at each function that makes or changes a page: its caller learns of its own bytes only while the page is known to hold the same `&mut`.
// `size` stands beside `written`, for by that alone each caller would need an induction over the pieces.
#[derive(Drop)]
pub struct Page<'a> {
    bytes: &'a mut [u8],
    at: usize,
}

impl<'a> Page<'a> {
    pub fn new(bytes: &'a mut [u8]) -> Page<'a>
        ensures same_reference { result.bytes.ghost_name ≡ bytes.entry.ghost_name }
        ensures bytes { result.bytes.now ≡ bytes.old }
        ensures place { result.at ≡ 0 }
    {
        Page { bytes, at: 0 }
    }

    // How many bytes are written.
    pub fn len(&self) -> usize
        ensures { result ≡ self.now.at }
    {
        self.at
    }

    // How many bytes there is room for.
    pub fn room(&self) -> usize
        ensures { result ≡ length self.now.bytes.now - self.now.at }
    {
        self.bytes.len().saturating_sub(self.at)
    }

    // What is written.
    pub fn written(&self) -> &[u8]
        ensures { result.now ≡ take (min self.now.at (length self.now.bytes.now)) self.now.bytes.now }
    {
        &self.bytes[..self.at.min(self.bytes.len())]
    }

    // Takes back all but the first n bytes.
    pub fn truncate(&mut self, n: usize)
        ensures same_reference { self.new.bytes.ghost_name ≡ self.old.bytes.ghost_name }
        ensures bytes { self.new.bytes.now ≡ self.old.bytes.now }
        ensures place { self.new.at ≡ min self.old.at n }
    {
        self.at = self.at.min(n);
    }

    // One byte.
    pub fn put_byte(&mut self, b: u8)
        ensures same_reference { self.new.bytes.ghost_name ≡ self.old.bytes.ghost_name }
        ensures bytes { self.new.bytes.now ≡ spec.put_byte self.old.bytes.now self.old.at b }
        ensures place { self.new.at ≡ spec.past_byte self.old.bytes.now self.old.at }
        ensures piece { spec.sheet self.new ≡ spec.put_piece (spec.sheet self.old) (b ∷ []) }
    {
        if self.at < self.bytes.len() {
            self.bytes[self.at] = b;
            self.at += 1;
        }
    }

    // The last n digits of a number.
    pub fn put_digits(&mut self, value: u64, n: usize)
        ensures same_reference { self.new.bytes.ghost_name ≡ self.old.bytes.ghost_name }
        ensures digits { Put self.old.bytes.now self.old.at (digits n value) self.new.bytes.now self.new.at }
        ensures piece { spec.sheet self.new ≡ spec.put_piece (spec.sheet self.old) (digits n value) }
        ensures size { length self.new.bytes.now ≡ length self.old.bytes.now }
    {
        self.at = hex_digits::put_number(self.bytes, self.at, value, n);
    }

    // The fields of a result.
    pub fn put<T: Fields>(&mut self, fields: T)
        ensures same_reference { self.new.bytes.ghost_name ≡ self.old.bytes.ghost_name }
        ensures written { spec.sheet self.new ≡ spec.put_all (spec.sheet self.old) (T.pieces fields) }
        ensures size { length self.new.bytes.now ≡ length self.old.bytes.now }
    {
        fields.put(self);
    }
}

// A result that has fields on a page.
pub trait Fields {
    // The pieces that are written, one after another.
    ghost pieces: { Self → List (List ℕ) };

    fn put(self, page: &mut Page<'_>)
        ensures same_reference { page.new.bytes.ghost_name ≡ page.old.bytes.ghost_name }
        ensures written { spec.sheet page.new ≡ spec.put_all (spec.sheet page.old) (pieces self) }
        ensures size { length page.new.bytes.now ≡ length page.old.bytes.now };
}
