// Path attributes of an UPDATE: flags, a code, a length of one byte or two, and a body.
#![tactic(auto)]

ghost use Rattle.std.specs.Prelude.{◌≡◌, false, ◌+◌, ◌/◌, ◌%◌, ◌^◌, ◌<◌, ◌≤◌, length, drop, eqb};
ghost use Rattle.std.specs.Iterator.{YieldsFirst, item_count};
ghost use Rattle.octets.specs.Rows.{sized};
ghost use Rattle.aspath.specs.Wire.{width_bytes};
ghost use Rattle.attributes.specs.Wire.{length_width, attribute_header, body_size, attribute_size, raws_of};
ghost use Rattle.attributes.specs.Codes.{is_sound};
ghost use Rattle.attributes.specs.Bodies.{body_right, all_right};
ghost use Rattle.attributes.specs.Finding.{find_of};
ghost use Rattle.attributes.specs.Left.{attributes_left};

use aspath::Width;

// The codes of the types that are looked at.
pub const ORIGIN: u8 = 1;

pub const AS_PATH: u8 = 2;

pub const NEXT_HOP: u8 = 3;

pub const ATOMIC_AGGREGATE: u8 = 6;

pub const AGGREGATOR: u8 = 7;

pub const COMMUNITY: u8 = 8;

// The values of an ORIGIN.
pub const IGP: u32 = 0;

pub const EGP: u32 = 1;

pub const INCOMPLETE: u32 = 2;

pub const ORIGIN_SIZE: usize = 1;

// The flag that makes an attribute's length two bytes.
const EXTENDED_LENGTH: u32 = 0x10;

// The flags and the code, before the length.
const TYPE_SIZE: usize = 2;

const CODE_AT: usize = 1;

// Where the body of an attribute stands in its section.
#[derive(Clone, Copy, PartialEq, Eq, Debug)]
pub struct Body {
    pub start: usize,
    pub len: usize,
}

// The bytes of an attribute's length.
fn length_width(flags: u32) -> usize
    ensures { (result ≡ length_width flags) × (result ≤ 2) }
{
    if flags / EXTENDED_LENGTH % 2 == 1 {
        return 2;
    }
    1
}

// The bytes before the body of the attribute at a place.
fn header_size(s: &[u8], at: usize) -> usize
    ensures { (result ≡ attribute_header (drop at s.now)) × (result ≤ 4) }
{
    TYPE_SIZE + length_width(octets::number(s, at, 1))
}

// The bytes of that body, as its length says.
fn body_size(s: &[u8], at: usize) -> usize
    requires { at < length s.now }
    ensures { (result ≡ body_size (drop at s.now)) × (result < 65536) }
{
    let width = length_width(octets::number(s, at, 1));
    octets::number(s, at + TYPE_SIZE, width) as usize
}

// The bytes of the attribute at a place, where a whole one stands there.
pub fn attribute_size(s: &[u8], at: usize) -> Option<usize>
    ensures { result ≡ sized (attribute_size (drop at s.now)) }
{
    if s.len() <= at {
        return None;
    }
    let size = header_size(s, at) + body_size(s, at);
    if s.len() - at < size {
        return None;
    }
    Some(size)
}

// Whether a bit of a word is set.
fn marked(word: u64, bit: u32) -> bool
    requires { bit < 64 }
    ensures { result ≡ eqb (word / 2 ^ bit % 2) 1 }
{
    (word >> bit) % 2 == 1
}

// A word with one more bit set.
fn mark(word: u64, bit: u32) -> u64
    requires { (bit < 64) × (word / 2 ^ bit % 2 ≡ 0) }
    ensures { result ≡ word + 2 ^ bit }
{
    word + (1 << bit)
}

// An attribute: its code, and where its body stands.
#[derive(Clone, Copy)]
struct Placed {
    code: u8,
    body: Body,
}

// The attributes of a section from a place on, up to its end or to the first that isn't whole.
#[derive(Clone, Copy)]
struct Attributes<'a> {
    section: &'a [u8],
    at: usize,
}

impl<'a> Iterator for Attributes<'a> {
    type Item = Placed;

    ghost next_gives = { YieldsFirst attributes_left };

    ghost remaining = { item_count attributes_left };

    fn next(&mut self) -> Option<Placed> {
        let size = attribute_size(self.section, self.at)?;
        let code = self.section[self.at + CODE_AT];
        let start = self.at + header_size(self.section, self.at);
        self.at += size;
        let len = self.at - start;
        Some(Placed {
            code,
            body: Body { start, len },
        })
    }
}

// Whether a section is attributes to its end, no code twice. The codes seen are the bits of four words.
pub fn sound(s: &[u8]) -> bool
    ensures { result ≡ is_sound s.now }
{
    let attributes = Attributes { section: s, at: 0 };
    let mut seen = [0u64; 4];
    let mut end = 0;
    for attribute in attributes {
        let word = (attribute.code / 64) as usize;
        let bit = (attribute.code % 64) as u32;
        if marked(seen[word], bit) {
            return false;
        }
        seen[word] = mark(seen[word], bit);
        end = attribute.body.start + attribute.body.len;
    }
    end == s.len()
}

// Whether the body of an attribute is as its code asks: ORIGIN, AS_PATH, NEXT_HOP, ATOMIC_AGGREGATE, AGGREGATOR and COMMUNITY are
// looked at, others are free.
fn body_right(code: u8, body: &[u8], width: Width) -> bool
    ensures { result ≡ body_right (width_bytes width) code body.now }
{
    match code {
        ORIGIN => {
            if body.len() != ORIGIN_SIZE {
                return false;
            }
            body[0] as u32 <= INCOMPLETE
        }
        AS_PATH => aspath::well_formed(body, width),
        NEXT_HOP => body.len() == network::ADDRESS_SIZE,
        ATOMIC_AGGREGATE => body.len() == 0,
        AGGREGATOR => body.len() == aspath::width_bytes(width) + network::ADDRESS_SIZE,
        COMMUNITY => communities::well_formed(body),
        _ => true,
    }
}

// Whether every body of a section is right.
pub fn bodies_right(s: &[u8], width: Width) -> bool
    ensures { result ≡ all_right (width_bytes width) (raws_of s.now) }
{
    let mut attributes = Attributes { section: s, at: 0 };
    attributes.all(|a| body_right(a.code, octets::part(s, a.body.start, a.body.len), width))
}

// The body of the first attribute of a section with a code.
pub fn find(s: &[u8], code: u8) -> Option<Body>
    ensures { result ≡ find_of code s.now }
{
    let mut attributes = Attributes { section: s, at: 0 };
    attributes.find(|a| a.code == code).map(|a| a.body)
}
