// Lowercase hexadecimal digits read out of lent bytes.
#![tactic(auto)]

ghost use Rattle.std.specs.Prelude.{ℕ, List, ◌≡◌, ◌^◌, ◌<◌, ◌≤◌, min, length, drop};
ghost use Rattle.std.specs.List.{list_all};
ghost use Rattle.unhex.specs.Digits.{is_digit, all_digits, digit_of, hex_at, low_of, lows_at, lows_in, lows_of, Reads};

// Is b one of 0 to 9 and a to f?
pub fn is_digit(b: u8) -> bool
    ensures { result ≡ is_digit b }
{
    // No branch between the two: a loop over it is then done 16 bytes at a time.
    matches!(b, b'0'..=b'9') | matches!(b, b'a'..=b'f')
}

// Are all bytes of s digits? No `all`, which returns early: without that the compiler tests 16 at once.
fn each_digit(s: &[u8]) -> bool
    ensures { result ≡ all_digits s.now }
{
    s.iter().fold(true, |ok, b| ok & is_digit(*b))
}

// Are all bytes of a short slice digits? From 8 on they are two blocks of 8, which may overlap.
fn each_of_few(s: &[u8]) -> bool
    requires { length s.now ≤ 16 }
    ensures { result ≡ all_digits s.now }
{
    if let Some(first) = s.first_chunk::<8>()
        && let Some(last) = s.last_chunk::<8>()
    {
        return each_digit(first) & each_digit(last);
    }
    each_digit(s)
}

// Are all bytes of these blocks digits?
fn each_block(blocks: &[[u8; 16]]) -> bool
    ensures { result ≡ list_all all_digits blocks.now }
{
    blocks.iter().all(|block| each_digit(block))
}

// Are all bytes of s digits?
pub fn all_digits(s: &[u8]) -> bool
    ensures value { result ≡ all_digits s.now }
    ensures unchanged { s.exit.now ≡ s.entry.now }
{
    let Some(last) = s.last_chunk::<16>() else {
        return each_of_few(s);
    };
    // The last block may overlap the one before it: no byte is then tested by itself.
    let (blocks, _) = s[..s.len() - 1].as_chunks::<16>();
    each_block(blocks) & each_digit(last)
}

// The number of a digit, and 0 of any other byte.
fn digit(b: u8) -> u64
    ensures { result ≡ digit_of b }
{
    match b {
        b'0'..=b'9' => (b - b'0') as u64,
        b'a'..=b'f' => (b - b'a') as u64 + 10,
        _ => 0,
    }
}

// The low four bits of a byte, of nine more where its bit of 64 is set, with no branch: of a digit its number.
fn low(b: u8) -> u64
    ensures { result ≡ low_of b }
{
    let d = b as u64;
    (d % 16 + d / 64 % 2 * 9) % 16
}

// The number of the first n bytes of s, high digit first, each by its digit; past the end of s stands a 0.
fn number_by<F: Fn(u8) -> u64>(s: &[u8], n: usize, digit: F) -> u64
    requires few { n ≤ 16 }
    requires callable { F.IsAlwaysCallable digit }
    requires small { (b d : ℕ) → F.post digit b d → d < 16 }
    ensures { (f : ℕ → ℕ) (g : List ℕ → ℕ → ℕ → ℕ) → Reads f g → ((b d : ℕ) → F.post digit b d → d ≡ f b) → result ≡ g s.now 0 n }
{
    let mut v = 0;
    // A `fold` over the bytes and zeros after them leaves the goal `fold-requires-clause-callable` open: that no turn of it overflows.
    for i in 0..n {
        v = v * 16 + digit(s.get(i).copied().unwrap_or(0));
    }
    v
}

// The number of a word's eight bytes by their low bits, all at once: each byte becomes its low bits, and then neighbours are joined,
// two digits to each 16 bits, four to each 32, and eight. Each mask keeps the low half of every field, so no carry leaves one.
fn folded(w: u64) -> u64
    ensures { result ≡ lows_of 8 w }
{
    let x = ((w & 0x0f0f_0f0f_0f0f_0f0f) + ((w >> 6) & 0x0101_0101_0101_0101) * 9)
        & 0x0f0f_0f0f_0f0f_0f0f;
    let y = (x & 0x00ff_00ff_00ff_00ff) * 16 + ((x >> 8) & 0x00ff_00ff_00ff_00ff);
    let z = (y & 0x0000_ffff_0000_ffff) * 256 + ((y >> 16) & 0x0000_ffff_0000_ffff);
    (z & 0xffff_ffff) * 65536 + ((z >> 32) & 0xffff_ffff)
}

// The number of eight bytes by their low bits.
fn eight(bytes: &[u8; 8]) -> u64
    ensures value { result ≡ lows_at bytes.now 0 8 }
    ensures fits { result < 2 ^ 32 }
{
    folded(u64::from_le_bytes(*bytes))
}

// The bytes of s from at on, and none where it ends before.
// A slice and a place stay two parameters in all that follows: a frame's fields are read out of one line, each at its place.
fn tail(s: &[u8], at: usize) -> &[u8]
    ensures { result.now ≡ drop at s.now }
{
    s.get(at..).unwrap_or_default()
}

// The number of the two digits of s from at on, for who knows that they are digits: a byte that is none counts by its low bits alone.
// 0 where s ends before.
pub fn two_at(s: &[u8], at: usize) -> u64
    ensures value { result ≡ lows_in s.now at 2 }
    ensures unchanged { s.exit.now ≡ s.entry.now }
{
    let [high, rest, ..] = tail(s, at) else {
        return 0;
    };
    low(*high) * 16 + low(*rest)
}

// The number of the 16 digits of s from at on, for who knows that they are digits: a byte that is none counts by its low bits alone. 0 where s ends before.
pub fn sixteen_at(s: &[u8], at: usize) -> u64
    ensures value { result ≡ lows_in s.now at 16 }
    ensures unchanged { s.exit.now ≡ s.entry.now }
{
    // Not one with `two_at`: over a const width the checker takes no bound `Fn` that names it, and a function over the parts, their reader and their weight says no less.
    let [high, rest, ..] = tail(s, at).as_chunks::<8>().0 else {
        return 0;
    };
    eight(high) * 4294967296 + eight(rest)
}

// The number of the n digits of s from at on, high digit first, of the first 16 of them where n is more.
// A byte that is no digit counts as 0, and so does a place past the end of s.
pub fn number_at(s: &[u8], at: usize, n: usize) -> u64
    ensures value { result ≡ hex_at s.now at (min n 16) }
    ensures unchanged { s.exit.now ≡ s.entry.now }
{
    let width = n.min(16);
    // Digits alone need no test each.
    if let Some(rest) = s.get(at..)
        && let Some(part) = rest.get(..width)
        && all_digits(part)
    {
        return number_by(part, part.len(), |b| low(b));
    }
    number_by(tail(s, at), width, |b| digit(b))
}
