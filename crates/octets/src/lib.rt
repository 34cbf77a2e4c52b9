// Bytes: big-endian numbers, parts, whether two are the same, clipped writes and decimal digits. Every function takes any slice and any place.
#![tactic(auto)]

ghost use Rattle.std.specs.Prelude.{◌≡◌, [], ◌∷◌, get_or, drop, ◌<◌, leb};
ghost use Rattle.octets.specs.Choice.{pick};
ghost use Rattle.octets.specs.Equal.{same};
ghost use Rattle.octets.specs.Numbers.{widest_number, number_at, bytes_of};
ghost use Rattle.octets.specs.Parts.{part_at};
ghost use Rattle.octets.specs.Writes.{Written};
ghost use Rattle.octets.specs.Decimal.{decimal};

const WIDEST_NUMBER: usize = 4;

const ZERO: u32 = b'0' as u32;

// The byte at a place, 0 past the end.
fn octet(s: &[u8], at: usize) -> u32
    ensures { (result ≡ get_or s.now at 0) × (result < 256) }
{
    s.get(at).copied().map_or(0, u32::from)
}

// The number in the width bytes at a place, the most significant first. A byte past the end reads 0, and so does a number of
// more than four bytes.
pub fn number(s: &[u8], at: usize, width: usize) -> u32
    ensures { result ≡ pick (leb width widest_number) (number_at s.now at width) 0 }
{
    if WIDEST_NUMBER < width {
        return 0;
    }
    if s.len() <= at {
        return 0;
    }
    let mut n: u32 = 0;
    for i in 0..width {
        n = n * 256 + octet(s, at + i);
    }
    n
}

// What a slice holds from a place on, at most len bytes of it.
pub fn part(s: &[u8], start: usize, len: usize) -> &[u8]
    ensures { result.now ≡ part_at s.now start len }
{
    let tail = rest(s, start);
    &tail[..len.min(tail.len())]
}

// What a slice holds from a place on.
pub fn rest(s: &[u8], from: usize) -> &[u8]
    ensures { result.now ≡ drop from s.now }
{
    &s[from.min(s.len())..]
}

// Whether two byte strings are the same.
#[tactic(auto, unfolding(crate::specs::Equal::same))]
pub fn same(a: &[u8], b: &[u8]) -> bool
    ensures { result ≡ same a.now b.now }
{
    a == b
}

// Writes a byte where the buffer reaches that far, and answers the next place: a run over an empty buffer measures.
pub fn put(out: &mut [u8], at: usize, b: u8) -> usize
    ensures { Written out.old at (b ∷ []) out.new result }
{
    if at < out.len() {
        out[at] = b;
    }
    at.saturating_add(1)
}

// Writes bytes one after another.
pub fn put_bytes(out: &mut [u8], at: usize, bytes: &[u8]) -> usize
    ensures { Written out.old at bytes.now out.new result }
{
    let mut place = at;
    for b in bytes {
        place = put(out, place, *b);
    }
    place
}

// Writes two bytes, with one test where both are within the buffer.
fn put_pair(out: &mut [u8], at: usize, a: u8, b: u8) -> usize
    ensures { Written out.old at (a ∷ b ∷ []) out.new result }
{
    if 2 <= out.len() && at <= out.len() - 2 {
        out[at] = a;
        out[at + 1] = b;
        return at + 2;
    }
    let next = put(out, at, a);
    put(out, next, b)
}

// Writes a number's decimal digits, two at a time.
pub fn put_decimal(out: &mut [u8], at: usize, n: u32) -> usize
    ensures { Written out.old at (decimal n) out.new result }
{
    if n < 10 {
        return put(out, at, (n + ZERO) as u8);
    }
    if n < 100 {
        return put_pair(out, at, (n / 10 + ZERO) as u8, (n % 10 + ZERO) as u8);
    }
    let next = put_decimal(out, at, n / 100);
    put_pair(out, next, (n / 10 % 10 + ZERO) as u8, (n % 10 + ZERO) as u8)
}

// Writes the width bytes of a number, the most significant first; nothing where the width is more than four.
pub fn put_number(out: &mut [u8], at: usize, n: u32, width: usize) -> usize
    ensures { Written out.old at (pick (leb width widest_number) (bytes_of width n) []) out.new result }
{
    if width == 0 {
        return at;
    }
    if WIDEST_NUMBER < width {
        return at;
    }
    let next = put_number(out, at, n / 256, width - 1);
    put(out, next, (n % 256) as u8)
}
