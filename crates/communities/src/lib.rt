// Communities (RFC 1997): numbers of four bytes, one after another in the body of a COMMUNITY attribute. Three have a name.
#![tactic(auto)]

ghost use Rattle.std.specs.Prelude.{◌≡◌};
ghost use Rattle.octets.specs.Rows.{whole};
ghost use Rattle.octets.specs.Writes.{Written};
ghost use Rattle.names.specs.Tables.{found};
ghost use Rattle.communities.specs.Communities.{size_at, communities_of, is_held};
ghost use Rattle.communities.specs.Names.{community_names};
ghost use Rattle.communities.specs.Text.{halves_text, community_text};

use names::Row;

// The bytes of a community.
pub const SIZE: usize = 4;

// Each half is less.
pub const HALF_LIMIT: u32 = 65536;

// The communities that have a name.
const NO_EXPORT: u32 = 0xFFFFFF01;

const NO_ADVERTISE: u32 = 0xFFFFFF02;

const NO_EXPORT_SUBCONFED: u32 = 0xFFFFFF03;

const NAMED: [Row<u32>; 3] = [
    (b"NO_EXPORT", NO_EXPORT),
    (b"NO_ADVERTISE", NO_ADVERTISE),
    (b"NO_EXPORT_SUBCONFED", NO_EXPORT_SUBCONFED),
];

// Whether a body is communities to its end.
pub fn well_formed(body: &[u8]) -> bool
    ensures { result ≡ whole size_at body.now }
{
    body.len() % SIZE == 0
}

// The communities of a body, up to its end or to the first that isn't whole.
#[derive(Clone, Copy, Debug)]
pub struct Communities<'a>(pub &'a [u8]);

impl<'a> Iterator for Communities<'a> {
    ghost use Rattle.std.specs.Iterator.{YieldsFirst, item_count};
    ghost use Rattle.communities.specs.Left.{communities_left};

    type Item = u32;

    ghost next_gives = { YieldsFirst communities_left };

    ghost remaining = { item_count communities_left };

    fn next(&mut self) -> Option<u32> {
        if self.0.len() < SIZE {
            return None;
        }
        let community = octets::number(self.0, 0, SIZE);
        self.0 = &self.0[SIZE..];
        Some(community)
    }
}

// Whether a community stands in a body.
pub fn has(body: &[u8], community: u32) -> bool
    ensures { result ≡ is_held (communities_of body.now) community }
{
    Communities(body).any(|held| held == community)
}

// The community of a name.
pub fn named(bytes: &[u8]) -> Option<u32>
    ensures { result ≡ found community_names bytes.now }
{
    names::value_in(&NAMED, bytes)
}

// Writes the halves of a community.
fn put_halves(out: &mut [u8], at: usize, community: u32) -> usize
    ensures { Written out.old at (halves_text community) out.new result }
{
    let place = octets::put_decimal(out, at, community / HALF_LIMIT);
    let place = octets::put(out, place, b':');
    octets::put_decimal(out, place, community % HALF_LIMIT)
}

// Writes a community: its name where it has one, else its halves.
pub fn put_community(out: &mut [u8], at: usize, community: u32) -> usize
    ensures { Written out.old at (community_text community) out.new result }
{
    match community {
        NO_EXPORT => octets::put_bytes(out, at, b"NO_EXPORT"),
        NO_ADVERTISE => octets::put_bytes(out, at, b"NO_ADVERTISE"),
        NO_EXPORT_SUBCONFED => octets::put_bytes(out, at, b"NO_EXPORT_SUBCONFED"),
        _ => put_halves(out, at, community),
    }
}
