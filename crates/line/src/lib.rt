// The printed lines of a message. A writer lays its text over the buffer as far as it reaches and answers the place after it.
#![tactic(auto)]

ghost use Rattle.std.specs.Prelude.{◌≡◌, ℕ, List, [], ◌∷◌, ◌++◌, map, ◌+◌, ◌*◌, ◌≤◌, drop, get_or, length};
ghost use Rattle.octets.specs.Writes.{Written};
ghost use Rattle.octets.specs.Decimal.{decimal};
ghost use Rattle.octets.specs.Numbers.{number_at};
ghost use Rattle.network.specs.Networks.{address_size};
ghost use Rattle.network.specs.Text.{address_text};
ghost use Rattle.aspath.specs.Wire.{width_bytes, segment_size, segment_of, numbers_in, segments_of};
ghost use Rattle.communities.specs.Communities.{communities_of};
ghost use Rattle.attributes.specs.Bodies.{aggregator_of, attributes_of};
ghost use Rattle.attributes.specs.Finding.{body_at, find_of};
ghost use Rattle.message.specs.Decode.{networks_of, message_at};
ghost use Rattle.std.specs.Iterator.{IsFinite};
ghost use Rattle.line.specs.Field.{Gives, Writes};
ghost use Rattle.line.specs.Text.{space, bar, separated, following, optional, prefixes_text, segment_text, path_text, communities_text};
ghost use Rattle.line.specs.Line.{origin_text, atomic_text, aggregator_text};
ghost use Rattle.line.specs.Line.{width_text, attribute_fields, closing_fields, line_of, lines_of};
ghost use Rattle.line.specs.Answer.{is_ample, writing_of, writing};

use aspath::Width;
use communities::Communities;
use message::{MESSAGE_LIMIT, Parts};
use network::Networks;

// The room that suffices for the lines of every readable record.
pub const LINE_ROOM: usize = 65536;

// The buffer is too short for the lines.
#[derive(Clone, Copy, Debug, PartialEq, Eq)]
pub struct Short;

// What a writer makes of each item of an iterator, with spaces between.
fn put_spaced<I: Iterator, F: Fn(&mut [u8], usize, I::Item) -> usize>(
    out: &mut [u8],
    at: usize,
    mut items: I,
    put_item: F,
) -> usize
    requires can { I.can_next items }
    requires ends { IsFinite (I.remaining items) }
    requires calls { F.IsAlwaysCallable put_item }
    ensures { (text : _ → List ℕ) (left : _ → List (List ℕ)) → Gives I.next_gives text left → Writes (F.post put_item) text
        → Written out.old at (separated space (left items)) out.new result }
{
    let Some(first) = items.next() else {
        return at;
    };
    let mut place = put_item(out, at, first);
    for item in items {
        place = octets::put(out, place, b' ');
        place = put_item(out, place, item);
    }
    place
}

// The prefixes of a section with spaces between.
fn put_prefixes(out: &mut [u8], at: usize, s: &[u8]) -> usize
    ensures { Written out.old at (prefixes_text (networks_of s.now)) out.new result }
{
    put_spaced(out, at, Networks(s), network::put_network)
}

// As many numbers as asked for, with a separator between. Not put_spaced: an iterator over numbers would serve this one caller.
fn put_numbers(
    out: &mut [u8],
    at: usize,
    s: &[u8],
    start: usize,
    count: usize,
    width: Width,
    separator: u8,
) -> usize
    requires { start + count * width_bytes width ≤ length s.now }
    ensures { Written out.old at
        (separated separator (map decimal (numbers_in (width_bytes width) count (drop start s.now))))
        out.new result }
{
    if count == 0 {
        return at;
    }
    let w = aspath::width_bytes(width);
    let mut place = octets::put_decimal(out, at, octets::number(s, start, w));
    for i in 1..count {
        place = octets::put(out, place, separator);
        place = octets::put_decimal(out, place, octets::number(s, start + i * w, w));
    }
    place
}

// The segment at a place: the numbers of a set in braces, parted by commas, those of a sequence by spaces.
fn put_segment(out: &mut [u8], at: usize, s: &[u8], p: usize, width: Width) -> usize
    requires { segment_size (width_bytes width) (drop p s.now) ≡ 0 → ⊥ }
    ensures { Written out.old at (segment_text (segment_of (width_bytes width) (drop p s.now))) out.new result }
{
    let count = octets::number(s, p + 1, 1) as usize;
    if octets::number(s, p, 1) == 1 {
        let place = octets::put(out, at, b'{');
        let place = put_numbers(out, place, s, p + 2, count, width, b',');
        return octets::put(out, place, b'}');
    }
    put_numbers(out, at, s, p + 2, count, width, b' ')
}

// The segments of a path with spaces between. Not put_spaced: an iterator over segments would serve this one caller.
fn put_path(out: &mut [u8], at: usize, s: &[u8], width: Width) -> usize
    ensures { Written out.old at (path_text (segments_of (width_bytes width) s.now)) out.new result }
{
    let Some(first) = aspath::segment_size(s, 0, width) else {
        return at;
    };
    let mut place = put_segment(out, at, s, 0, width);
    let mut p = first;
    while let Some(size) = aspath::segment_size(s, p, width) {
        let next = octets::put(out, place, b' ');
        place = put_segment(out, next, s, p, width);
        p += size;
    }
    place
}

// A field after a bar: what a writer makes of the body of the first attribute with a code, nothing where there is none.
fn put_field<F: FnOnce(&mut [u8], usize, &[u8]) -> usize>(
    out: &mut [u8],
    at: usize,
    s: &[u8],
    code: u8,
    put_body: F,
) -> usize
    requires { F.IsAlwaysCallable put_body }
    ensures { (text : List ℕ → List ℕ) → Writes (F.post put_body) (λ body. text body.now)
        → Written out.old at ((bar ∷ []) ++ optional text (body_at s.now (find_of code s.now))) out.new result }
{
    let place = octets::put(out, at, b'|');
    let Some(body) = attributes::find(s, code) else {
        return place;
    };
    put_body(out, place, octets::part(s, body.start, body.len))
}

// The address of a NEXT_HOP.
fn put_next_hop(out: &mut [u8], at: usize, body: &[u8]) -> usize
    ensures { Written out.old at (address_text (number_at body.now 0 address_size)) out.new result }
{
    network::put_address(out, at, octets::number(body, 0, network::ADDRESS_SIZE))
}

// The letter of an origin.
fn origin_letter(n: u32) -> u8
    ensures { (result ∷ []) ≡ origin_text n }
{
    match n {
        attributes::IGP => b'i',
        attributes::EGP => b'e',
        _ => b'?',
    }
}

// The letter of an ORIGIN.
fn put_origin(out: &mut [u8], at: usize, body: &[u8]) -> usize
    ensures { Written out.old at (origin_text (get_or body.now 0 0)) out.new result }
{
    octets::put(
        out,
        at,
        origin_letter(octets::number(body, 0, attributes::ORIGIN_SIZE)),
    )
}

// An ATOMIC_AGGREGATE, whose body says nothing.
fn put_atomic(out: &mut [u8], at: usize, _body: &[u8]) -> usize
    ensures { Written out.old at (atomic_text tt) out.new result }
{
    octets::put_bytes(out, at, b"AT")
}

// The number and the address of an AGGREGATOR.
fn put_aggregator(out: &mut [u8], at: usize, body: &[u8], width: Width) -> usize
    ensures { Written out.old at (aggregator_text (aggregator_of (width_bytes width) body.now)) out.new result }
{
    let w = aspath::width_bytes(width);
    let place = octets::put_decimal(out, at, octets::number(body, 0, w));
    let place = octets::put(out, place, b' ');
    network::put_address(out, place, octets::number(body, w, network::ADDRESS_SIZE))
}

// The communities of a body with spaces between.
fn put_communities(out: &mut [u8], at: usize, body: &[u8]) -> usize
    ensures { Written out.old at (communities_text (communities_of body.now)) out.new result }
{
    put_spaced(out, at, Communities(body), communities::put_community)
}

// The fields of the attributes, each after a bar.
fn put_attributes(out: &mut [u8], at: usize, s: &[u8], width: Width) -> usize
    ensures { Written out.old at
        (following bar (attribute_fields (attributes_of (width_bytes width) s.now)))
        out.new result }
{
    let place = put_field(out, at, s, attributes::AS_PATH, |out, at, body| {
        put_path(out, at, body, width)
    });
    let place = put_field(out, place, s, attributes::NEXT_HOP, put_next_hop);
    let place = put_field(out, place, s, attributes::ORIGIN, put_origin);
    let place = put_field(out, place, s, attributes::ATOMIC_AGGREGATE, put_atomic);
    let place = put_field(out, place, s, attributes::AGGREGATOR, |out, at, body| {
        put_aggregator(out, at, body, width)
    });
    put_field(out, place, s, attributes::COMMUNITY, put_communities)
}

// The digit that tells the width.
fn width_digit(width: Width) -> u8
    ensures { (result ∷ []) ≡ width_text width }
{
    match width {
        Width::Two => b'0',
        Width::Four => b'1',
    }
}

// PEER, TIMESTAMP and ASN32BIT, each after a bar.
fn put_closing(
    out: &mut [u8],
    at: usize,
    address: u32,
    asn: u32,
    seconds: u32,
    width: Width,
) -> usize
    ensures { Written out.old at (following bar (closing_fields address asn seconds width)) out.new result }
{
    let place = octets::put(out, at, b'|');
    let place = network::put_address(out, place, address);
    let place = octets::put(out, place, b' ');
    let place = octets::put_decimal(out, place, asn);
    let place = octets::put(out, place, b'|');
    let place = octets::put_decimal(out, place, seconds);
    let place = octets::put(out, place, b'|');
    octets::put(out, place, width_digit(width))
}

// One line, or nothing where there are no prefixes.
fn put_line(
    out: &mut [u8],
    at: usize,
    sign: u8,
    prefixes: &[u8],
    attributes: &[u8],
    parts: Parts,
) -> usize
    ensures { Written out.old at
        (line_of sign (networks_of prefixes.now) (attributes_of (width_bytes parts.width) attributes.now)
        (closing_fields parts.address parts.peer parts.seconds parts.width))
        out.new result }
{
    if network::prefix_size(prefixes, 0).is_none() {
        return at;
    }
    let width = parts.width;
    let place = octets::put(out, at, sign);
    let place = octets::put(out, place, b'|');
    let place = put_prefixes(out, place, prefixes);
    let place = put_attributes(out, place, attributes, width);
    let place = put_closing(out, place, parts.address, parts.peer, parts.seconds, width);
    octets::put(out, place, b'\n')
}

// Both lines. The `-` line has no attributes.
fn put_lines(out: &mut [u8], at: usize, s: &[u8], parts: Parts) -> usize
    ensures { Written out.old at (lines_of (message_at s.now parts)) out.new result }
{
    let announced = message::part_of(s, parts.announced);
    let attributes = message::part_of(s, parts.attributes);
    let withdrawn = message::part_of(s, parts.withdrawn);
    let none = octets::part(s, 0, 0);
    let place = put_line(out, at, b'+', announced, attributes, parts);
    put_line(out, place, b'-', withdrawn, none, parts)
}

// Whether the room suffices by the sizes of the sections alone: it does for every readable record and LINE_ROOM.
fn ample(parts: Parts, room: usize) -> bool
    ensures { result ≡ is_ample parts room }
{
    let withdrawn = parts.withdrawn.len;
    let attributes = parts.attributes.len;
    let announced = parts.announced.len;
    LINE_ROOM <= room
        && withdrawn <= MESSAGE_LIMIT
        && attributes <= MESSAGE_LIMIT
        && announced <= MESSAGE_LIMIT
        && withdrawn + attributes + announced <= MESSAGE_LIMIT
}

// Writes the lines of a message at the start of a buffer, and answers their bytes. A buffer that is too short for both stays as it is.
pub fn write(s: &[u8], parts: Parts, out: &mut [u8]) -> Result<usize, Short>
    ensures { writing_of result out.new ≡ writing (lines_of (message_at s.now parts)) out.old }
{
    if ample(parts, out.len()) {
        return Ok(put_lines(out, 0, s, parts));
    }
    let need = put_lines(&mut out[..0], 0, s, parts);
    if out.len() < need {
        return Err(Short);
    }
    put_lines(out, 0, s, parts);
    Ok(need)
}
