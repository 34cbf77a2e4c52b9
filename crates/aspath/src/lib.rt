// AS_PATH bodies: segments of a type, a count and as many AS numbers, each of two bytes or four.
#![tactic(auto)]

ghost use Rattle.std.specs.Prelude.{◌≡◌, ◌≤◌, drop};
ghost use Rattle.std.specs.Iterator.{YieldsFirstBy, item_count};
ghost use Rattle.octets.specs.Rows.{sized, whole};
ghost use Rattle.aspath.specs.Members.{member_of};
ghost use Rattle.aspath.specs.Wire.{width_bytes, widest, known, segment_size, members_of};
ghost use Rattle.aspath.specs.Cursors.{next_at, left};
ghost use Rattle.aspath.specs.Loops.{has_loop};
ghost use Rattle.aspath.specs.Bogons.{is_bogon, some_bogon};
ghost use Rattle.aspath.specs.Patterns.{fits};

// The types of a segment (RFC 4271, section 4.3).
pub const SET: u8 = 1;

pub const SEQUENCE: u8 = 2;

// The type and the count, before a segment's numbers.
pub const SEGMENT_HEADER: usize = 2;

// The bytes of an AS number: two (RFC 4271) or four (RFC 6793).
const TWO_OCTETS: usize = 2;

const FOUR_OCTETS: usize = 4;

// The width of an AS number.
#[derive(Clone, Copy, Debug, PartialEq, Eq)]
pub enum Width {
    Two,
    Four,
}

// A place in a body: at is the next byte, left the numbers left in the segment.
#[derive(Clone, Copy, Debug, PartialEq, Eq)]
pub struct Cursor {
    pub at: usize,
    pub left: usize,
}

// The place where a path starts.
pub const START: Cursor = Cursor { at: 0, left: 0 };

// An item behind a test's record: a number, any number but it, any at all.
#[derive(Clone, Copy, Debug, PartialEq, Eq)]
pub enum Item {
    Number(u32),
    Other(u32),
    Any,
}

// A range of AS numbers.
#[derive(Clone, Copy, Debug, PartialEq, Eq)]
pub struct Range {
    pub low: u32,
    pub high: u32,
}

const BOGON_RANGES: usize = 9;

const BOGONS: [Range; BOGON_RANGES] = [
    Range { low: 0, high: 0 },
    Range {
        low: 23456,
        high: 23456,
    },
    Range {
        low: 64496,
        high: 64511,
    },
    Range {
        low: 64512,
        high: 65534,
    },
    Range {
        low: 65535,
        high: 65535,
    },
    Range {
        low: 65536,
        high: 65551,
    },
    Range {
        low: 65552,
        high: 131071,
    },
    Range {
        low: 4200000000,
        high: 4294967294,
    },
    Range {
        low: 4294967295,
        high: 4294967295,
    },
];

pub fn width_bytes(width: Width) -> usize
    ensures { (result ≡ width_bytes width) × (result ≤ widest) }
{
    match width {
        Width::Two => TWO_OCTETS,
        Width::Four => FOUR_OCTETS,
    }
}

// Whether a segment's type is one of the two.
fn known(of_type: u8) -> bool
    ensures { result ≡ known of_type }
{
    matches!(of_type, SET | SEQUENCE)
}

// The bytes of the segment at a place, where a whole one of a known type with a number or more stands there.
pub fn segment_size(s: &[u8], at: usize, width: Width) -> Option<usize>
    ensures { result ≡ sized (segment_size (width_bytes width) (drop at s.now)) }
{
    let here = octets::rest(s, at);
    let [of_type, count, ..] = here else {
        return None;
    };
    if !known(*of_type) || *count == 0 {
        return None;
    }
    let size = SEGMENT_HEADER + *count as usize * width_bytes(width);
    if here.len() < size {
        return None;
    }
    Some(size)
}

// Whether a body is segments to its end.
pub fn well_formed(s: &[u8], width: Width) -> bool
    ensures { result ≡ whole (segment_size (width_bytes width)) s.now }
{
    let mut at = 0;
    while let Some(size) = segment_size(s, at, width) {
        at += size;
    }
    at == s.len()
}

// The member at a cursor, and the cursor after it. A path starts at START.
pub fn member_at(s: &[u8], c: Cursor, width: Width) -> Option<(u32, Cursor)>
    ensures { result ≡ next_at (width_bytes width) s.now c }
{
    let w = width_bytes(width);
    if c.left == 0 {
        segment_size(s, c.at, width)?;
        let first = c.at + SEGMENT_HEADER;
        let left = s[c.at + 1] as usize - 1;
        return Some((
            octets::number(s, first, w),
            Cursor {
                at: first + w,
                left,
            },
        ));
    }
    if octets::rest(s, c.at).len() < w {
        return None;
    }
    Some((
        octets::number(s, c.at, w),
        Cursor {
            at: c.at + w,
            left: c.left - 1,
        },
    ))
}

// The members of a path from a place on.
#[derive(Clone, Copy, Debug)]
pub struct Members<'a> {
    body: &'a [u8],
    width: Width,
    place: Cursor,
}

impl<'a> Iterator for Members<'a> {
    type Item = u32;

    ghost next_gives = { YieldsFirstBy member_of left };

    ghost remaining = { item_count left };

    fn next(&mut self) -> Option<u32> {
        let (n, after) = member_at(self.body, self.place, self.width)?;
        self.place = after;
        Some(n)
    }
}

// All of them.
pub fn members_of(body: &[u8], width: Width) -> Members<'_>
    ensures { left result ≡ members_of (width_bytes width) body.now }
{
    Members {
        body,
        width,
        place: START,
    }
}

// Whether some number returns after another: the search is left at the first loop found.
pub fn loops(from: Members) -> bool
    ensures { result ≡ has_loop (left from.entry) }
{
    let mut path = from;
    'search: loop {
        let Some(n) = path.next() else {
            return false;
        };
        let mut other = false;
        for m in path {
            if m != n {
                other = true;
            } else if other {
                break 'search;
            }
        }
    }
    true
}

pub fn bogon(n: u32) -> bool
    ensures { result ≡ is_bogon n }
{
    BOGONS.iter().any(|r| (r.low..=r.high).contains(&n))
}

// Whether some number of the path is a bogon.
pub fn has_bogon(from: Members) -> bool
    ensures { result ≡ some_bogon (left from.entry) }
{
    let mut path = from;
    path.any(bogon)
}

// Whether an item of a pattern takes a member.
pub fn takes(item: Item, member: u32) -> bool
    ensures { result ≡ fits item (member_of member) }
{
    match item {
        Item::Number(n) => member == n,
        Item::Other(n) => member != n,
        Item::Any => true,
    }
}
