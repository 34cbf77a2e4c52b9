// One MRT record taken apart: a message's parts, or the refusal 11 to 18.
#![tactic(auto)]

ghost use Rattle.std.specs.Prelude.{◌≡◌, ◌≤◌, ◌+◌, length};
ghost use Rattle.message.specs.Represents.{marker_size};
ghost use Rattle.message.specs.Fields.{width_of, frame_start, frame, message_type, body_start, body, withdrawn_size, attributes_size};
ghost use Rattle.message.specs.Refusals.{number};
ghost use Rattle.message.specs.Decode.{part_of, wrong_size, wrong_mrt_type, wrong_peer, ones, wrong_frame, wrong_sections, wrong_prefix};
ghost use Rattle.message.specs.Decode.{other_parts, update_parts, update_of, message_of, decoding_of, our_decoding};

use aspath::Width;

pub const RECORD_LIMIT: usize = 8192;

// BGP4MP of RFC 6396, and its subtypes for AS numbers of two bytes and of four.
pub const BGP4MP: u32 = 16;

pub const MESSAGE: u32 = 1;

pub const MESSAGE_AS4: u32 = 4;

// The address family IPv4.
pub const IPV4: u32 = 1;

const INTERFACE_SIZE: usize = 2;

const FAMILY_SIZE: usize = 2;

// The peer's and the local address, which end the peer part; the family stands before them.
const ADDRESSES_SIZE: usize = 2 * network::ADDRESS_SIZE;

const FROM_FAMILY: usize = FAMILY_SIZE + ADDRESSES_SIZE;

// Where the BGP message starts, behind AS numbers of two bytes and of four.
const FRAME_AFTER_TWO: usize = header::SIZE + 2 * 2 + INTERFACE_SIZE + FROM_FAMILY;

const FRAME_AFTER_FOUR: usize = header::SIZE + 2 * 4 + INTERFACE_SIZE + FROM_FAMILY;

// The header of a BGP message (RFC 4271, section 4.1).
const MARKER_SIZE: usize = 16;

const MARKER: [u8; MARKER_SIZE] = [255; MARKER_SIZE];

const LENGTH_SIZE: usize = 2;

const TYPE_AT: usize = MARKER_SIZE + LENGTH_SIZE;

const TYPE_SIZE: usize = 1;

const FRAME_HEADER: usize = TYPE_AT + TYPE_SIZE;

pub const MESSAGE_LIMIT: usize = 4096;

pub const UPDATE: u32 = 2;

// The length of the withdrawn prefixes, that of the attributes, and both.
const SECTION_LENGTH: usize = 2;

const SECTION_LENGTHS: usize = 2 * SECTION_LENGTH;

// Where a part stands in its record.
#[derive(Clone, Copy, Debug, PartialEq, Eq)]
pub struct Part {
    pub start: usize,
    pub len: usize,
}

// A message's numbers, and where its sections stand.
#[derive(Clone, Copy, Debug, PartialEq, Eq)]
pub struct Parts {
    pub seconds: u32,
    pub width: Width,
    pub peer: u32,
    pub address: u32,
    pub code: u32,
    pub withdrawn: Part,
    pub attributes: Part,
    pub announced: Part,
}

// Why a record isn't read, in the order of the table.
#[derive(Clone, Copy, Debug, PartialEq, Eq)]
pub enum Refusal {
    Size = 11,
    MrtType = 12,
    Peer = 13,
    Frame = 14,
    Sections = 15,
    Attributes = 16,
    Body = 17,
    Prefix = 18,
}

#[tactic(auto, unfolding(crate::specs::Decode::wrong_size))]
fn wrong_size(s: &[u8]) -> bool
    ensures { result ≡ wrong_size s.now }
{
    let body = octets::number(s, header::LENGTH_AT, header::LENGTH_SIZE) as usize;
    s.len() < header::SIZE || RECORD_LIMIT < s.len() || header::SIZE + body != s.len()
}

#[tactic(auto, unfolding(crate::specs::Decode::wrong_mrt_type))]
fn wrong_mrt_type(s: &[u8]) -> bool
    ensures { result ≡ wrong_mrt_type s.now }
{
    let mrt_type = octets::number(s, header::TYPE_AT, header::TYPE_SIZE);
    let subtype = octets::number(s, header::SUBTYPE_AT, header::SUBTYPE_SIZE);
    mrt_type != BGP4MP || (subtype != MESSAGE && subtype != MESSAGE_AS4)
}

fn width_of(s: &[u8]) -> Width
    ensures { result ≡ width_of s.now }
{
    if octets::number(s, header::SUBTYPE_AT, header::SUBTYPE_SIZE) == MESSAGE {
        Width::Two
    } else {
        Width::Four
    }
}

// Where the BGP message starts.
fn frame_start(width: Width) -> usize
    ensures { (result ≡ frame_start width) × (28 ≤ result) × (result ≤ 32) }
{
    match width {
        Width::Two => FRAME_AFTER_TWO,
        Width::Four => FRAME_AFTER_FOUR,
    }
}

#[tactic(auto, unfolding(crate::specs::Decode::wrong_peer))]
fn wrong_peer(s: &[u8], width: Width) -> bool
    ensures { result ≡ wrong_peer width s.now }
{
    let start = frame_start(width);
    s.len() < start || octets::number(s, start - FROM_FAMILY, FAMILY_SIZE) != IPV4
}

fn marked(m: &[u8]) -> bool
    ensures { result ≡ ones marker_size m.now }
{
    m.starts_with(&MARKER)
}

#[tactic(auto, unfolding(crate::specs::Decode::wrong_frame))]
fn wrong_frame(m: &[u8]) -> bool
    ensures { result ≡ wrong_frame m.now }
{
    let marked = marked(m);
    let length = octets::number(m, MARKER_SIZE, LENGTH_SIZE) as usize;
    m.len() < FRAME_HEADER || MESSAGE_LIMIT < m.len() || !marked || length != m.len()
}

#[tactic(auto, unfolding(crate::specs::Decode::wrong_sections))]
fn wrong_sections(b: &[u8]) -> bool
    ensures { result ≡ wrong_sections b.now }
{
    let withdrawn = octets::number(b, 0, SECTION_LENGTH) as usize;
    let attributes = octets::number(b, SECTION_LENGTH + withdrawn, SECTION_LENGTH) as usize;
    b.len() < SECTION_LENGTHS + withdrawn + attributes
}

#[tactic(auto, unfolding(crate::specs::Decode::wrong_prefix))]
fn wrong_prefix(withdrawn: &[u8], announced: &[u8]) -> bool
    ensures { result ≡ wrong_prefix withdrawn.now announced.now }
{
    !network::prefixes_whole(withdrawn) || !network::prefixes_whole(announced)
}

// The parts of a message without sections: the numbers before it, and its type.
#[tactic(auto, unfolding(crate::specs::Decode::other_parts))]
fn other_parts(s: &[u8], width: Width) -> Parts
    ensures { result ≡ other_parts width s.now }
{
    let start = frame_start(width);
    let none = Part { start: 0, len: 0 };
    Parts {
        seconds: octets::number(s, header::SECONDS_AT, header::SECONDS_SIZE),
        width,
        peer: octets::number(s, header::SIZE, aspath::width_bytes(width)),
        address: octets::number(s, start - ADDRESSES_SIZE, network::ADDRESS_SIZE),
        code: octets::number(s, start + TYPE_AT, TYPE_SIZE),
        withdrawn: none,
        attributes: none,
        announced: none,
    }
}

// The parts of an UPDATE whose sections fit, from those without them; withdrawn and attributes are the lengths of two.
#[tactic(auto, unfolding(crate::specs::Decode::update_parts, crate::specs::Decode::other_parts))]
fn update_parts(s: &[u8], parts: Parts, withdrawn: usize, attributes: usize) -> Parts
    requires { (parts ≡ other_parts parts.width s.now)
        × (withdrawn ≡ withdrawn_size (body parts.width s.now))
        × (attributes ≡ attributes_size (body parts.width s.now))
        × (body_start parts.width + 4 + withdrawn + attributes ≤ length s.now) }
    ensures { result ≡ update_parts parts.width s.now }
{
    let start = frame_start(parts.width) + FRAME_HEADER;
    let announced = start + SECTION_LENGTHS + withdrawn + attributes;
    Parts {
        code: UPDATE,
        withdrawn: Part {
            start: start + SECTION_LENGTH,
            len: withdrawn,
        },
        attributes: Part {
            start: start + SECTION_LENGTHS + withdrawn,
            len: attributes,
        },
        announced: Part {
            start: announced,
            len: s.len() - announced,
        },
        ..parts
    }
}

// The checks of an UPDATE's body, and its parts, from those without sections.
#[tactic(auto, unfolding(crate::specs::Decode::update_of, crate::specs::Decode::wrong_attributes, crate::specs::Decode::wrong_body))]
fn update(s: &[u8], parts: Parts) -> Result<Parts, Refusal>
    requires { parts ≡ other_parts parts.width s.now }
    ensures { result ≡ update_of parts.width s.now }
{
    let b = octets::rest(s, frame_start(parts.width) + FRAME_HEADER);
    if wrong_sections(b) {
        return Err(Refusal::Sections);
    }
    let withdrawn = octets::number(b, 0, SECTION_LENGTH) as usize;
    let attributes = octets::number(b, SECTION_LENGTH + withdrawn, SECTION_LENGTH) as usize;
    let section = octets::part(b, SECTION_LENGTHS + withdrawn, attributes);
    if !attributes::sound(section) {
        return Err(Refusal::Attributes);
    }
    if !attributes::bodies_right(section, parts.width) {
        return Err(Refusal::Body);
    }
    let announced = octets::rest(b, SECTION_LENGTHS + withdrawn + attributes);
    if wrong_prefix(octets::part(b, SECTION_LENGTH, withdrawn), announced) {
        return Err(Refusal::Prefix);
    }
    Ok(update_parts(s, parts, withdrawn, attributes))
}

// The checks after the header.
#[tactic(auto, unfolding(crate::specs::Decode::message_of))]
fn message(s: &[u8], width: Width) -> Result<Parts, Refusal>
    ensures { result ≡ message_of width s.now }
{
    if wrong_peer(s, width) {
        return Err(Refusal::Peer);
    }
    let m = octets::rest(s, frame_start(width));
    if wrong_frame(m) {
        return Err(Refusal::Frame);
    }
    let parts = other_parts(s, width);
    if parts.code == UPDATE {
        update(s, parts)
    } else {
        Ok(parts)
    }
}

// The parts of a record's message, or the first refusal of the table that holds.
#[tactic(auto, unfolding(crate::specs::Decode::decode_of))]
pub fn decode(s: &[u8]) -> Result<Parts, Refusal>
    ensures { decoding_of result ≡ our_decoding s.now }
{
    if wrong_size(s) {
        return Err(Refusal::Size);
    }
    if wrong_mrt_type(s) {
        return Err(Refusal::MrtType);
    }
    message(s, width_of(s))
}

// The bytes of a part of a record, as many as the record has.
pub fn part_of(s: &[u8], part: Part) -> &[u8]
    ensures { result.now ≡ part_of s.now part }
{
    octets::part(s, part.start, part.len)
}

// The number of a refusal.
impl From<Refusal> for u32 {
    ghost from_gives = { λ refusal n. n ≡ number refusal };

    fn from(refusal: Refusal) -> u32 {
        refusal as u32
    }
}
