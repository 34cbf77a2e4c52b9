// Operands: what the bytes of a test's operand stand for.
#![tactic(auto)]

ghost use Rattle.std.specs.Prelude.{◌≡◌, ◌-◌, ◌*◌, ◌^◌, ◌≤◌, ◌<◌, length};
ghost use Rattle.octets.specs.Choice.{or_else};
ghost use Rattle.octets.specs.Writes.{Written};
ghost use Rattle.program.specs.Readings.{Side};
ghost use Rattle.program.specs.Layout.{fields, fields_of, encode_all, relation_code, side_code, ends_code};
ghost use Rattle.program.specs.Records.{item};
ghost use Rattle.token.specs.Texts.{text_limit};
ghost use Rattle.token.specs.Next.{is_blank};
ghost use Rattle.operand.specs.Fronts.{said, left, wholly, after, read, optional, cut};
ghost use Rattle.operand.specs.Decimals.{byte_limit, word_limit, digit_read, number, numeral};
ghost use Rattle.operand.specs.AsNumbers.{as_number, as_numeral};
ghost use Rattle.operand.specs.Addresses.{part_read, address_read, network_found, network_read};
ghost use Rattle.operand.specs.Peers.{behind_address};
ghost use Rattle.operand.specs.Parted.{all_parted};
ghost use Rattle.operand.specs.Patterns.{item_read, pattern_opened};
ghost use Rattle.operand.specs.Communities.{halves_read, name_read, community_read};
ghost use Rattle.operand.specs.Listed.{listed_read, listed_records, list_records};
ghost use Rattle.operand.specs.Left.{listed_left, GivesListed};
ghost use Rattle.operand.specs.Times.{fraction_digits, any_digits, fraction_of, comparison, signed, either_code};
ghost use Rattle.operand.specs.Tests.{meaning, operand_meaning, following_meant, meant_of, code_meant, peer_meant, network_meant};

use aspath::Item;
use network::{Network, Relation};
use program::{Fields, Kind};

// The value of a byte is below it: a code, or a part of an address.
const BYTE_LIMIT: u64 = 256;
// Every AS number is below it.
const AS_LIMIT: u64 = 4294967296;
// The seconds of a time are below it.
const SECONDS_LIMIT: u64 = 4294967296;
// The most digits of a fraction.
const FRACTION_DIGITS: usize = 6;
// The bits of an address, and the first length that no network has.
const ADDRESS_BITS: u64 = network::ADDRESS_BITS as u64;

const LENGTH_LIMIT: u64 = ADDRESS_BITS + 1;
// A half of a community is below it.
const HALF_LIMIT: u64 = communities::HALF_LIMIT as u64;

// The tests that have an operand.
#[derive(Clone, Copy, Debug, PartialEq, Eq)]
pub enum Name {
    MessageType,
    Attribute,
    Path,
    Peer,
    Time,
    Network(Relation),
    Communities,
}

// The head of a test and how many records follow it.
#[derive(Clone, Copy, Debug, PartialEq, Eq)]
pub struct Head {
    pub fields: Fields,
    pub following: u32,
}

// What is listed in an operand, a record each. Not the reader of one as a closure: contracts name the list.
#[derive(Clone, Copy, Debug, PartialEq, Eq)]
enum Listed {
    Items,
    Communities,
}

// A head that nothing follows. The fields stand in a record's order: named, with `..` for the zeros, each call would be six lines for one.
fn lone_head(kind: u32, variant: u32, count: u32, a: u32, b: u32) -> Head
    ensures { result ≡ record { fields = fields kind variant count a b; following = 0 } }
{
    Head {
        fields: Fields {
            kind,
            variant,
            count,
            a,
            b,
        },
        following: 0,
    }
}

// The bytes behind a byte that must stand at the front.
fn after(b: u8, s: &[u8]) -> Option<&[u8]>
    ensures { left result ≡ after b s.now }
{
    let [first, rest @ ..] = s else {
        return None;
    };
    if *first != b {
        return None;
    }
    Some(rest)
}

// Whether a byte stands at the front, and the bytes behind it.
fn optional(b: u8, s: &[u8]) -> (bool, &[u8])
    ensures { read result.0 result.1.now ≡ optional b s.now }
{
    match after(b, s) {
        Some(rest) => (true, rest),
        None => (false, s),
    }
}

// The bytes behind the blanks at the front.
fn past_blanks(s: &[u8]) -> &[u8]
    ensures { result.now ≡ (cut is_blank s.now).rest }
{
    octets::rest(s, token::blanks_end(s, 0))
}

// The digit at the front.
fn digit(s: &[u8]) -> Option<(u32, &[u8])>
    ensures { said result ≡ digit_read s.now }
{
    let [b, rest @ ..] = s else {
        return None;
    };
    if !b.is_ascii_digit() {
        return None;
    }
    Some(((*b - b'0') as u32, rest))
}

// The number at the front: no leading zeros, below the limit.
fn number(s: &[u8], limit: u64) -> Option<(u32, &[u8])>
    requires { (9 < limit) × (limit ≤ word_limit) }
    ensures { said result ≡ number limit s.now }
{
    let (first, mut rest) = digit(s)?;
    let mut n = first as u64;
    while let Some((d, behind)) = digit(rest) {
        if n == 0 {
            return None;
        }
        n = 10 * n + d as u64;
        if limit <= n {
            return None;
        }
        rest = behind;
    }
    Some((n as u32, rest))
}

// What was read, if nothing is left behind it.
fn wholly(found: Option<(u32, &[u8])>) -> Option<u32>
    ensures { result ≡ wholly (said found.entry) }
{
    let (value, rest) = found?;
    if !rest.is_empty() {
        return None;
    }
    Some(value)
}

// The number that all bytes write.
fn numeral(s: &[u8], limit: u64) -> Option<u32>
    requires { (9 < limit) × (limit ≤ word_limit) }
    ensures { result ≡ numeral limit s.now }
{
    wholly(number(s, limit))
}

// The AS number at the front.
fn as_number(s: &[u8]) -> Option<(u32, &[u8])>
    ensures { said result ≡ as_number s.now }
{
    number(s, AS_LIMIT)
}

// The AS number that all bytes write.
fn as_numeral(s: &[u8]) -> Option<u32>
    ensures { result ≡ as_numeral s.now }
{
    wholly(as_number(s))
}

// The record of a code: that of a name, or where there is none the number.
fn code_record(kind: u32, named: Option<u32>, bytes: &[u8]) -> Option<Head>
    ensures { result ≡ code_meant kind (or_else named (numeral byte_limit bytes.now)) }
{
    if let Some(code) = named {
        return Some(lone_head(kind, 0, 0, code, 0));
    }
    let code = numeral(bytes, BYTE_LIMIT)?;
    Some(lone_head(kind, 0, 0, code, 0))
}

// A part of an address and its dot.
fn part(s: &[u8]) -> Option<(u32, &[u8])>
    ensures { said result ≡ part_read s.now }
{
    let (value, rest) = number(s, BYTE_LIMIT)?;
    let rest = after(b'.', rest)?;
    Some((value, rest))
}

// The address at the front.
fn address(s: &[u8]) -> Option<(u32, &[u8])>
    ensures { said result ≡ address_read s.now }
{
    let (a, rest) = part(s)?;
    let (b, rest) = part(rest)?;
    let (c, rest) = part(rest)?;
    let (d, rest) = number(rest, BYTE_LIMIT)?;
    Some((((a * 256 + b) * 256 + c) * 256 + d, rest))
}

// The code of a relation. No `From`: only the crate of Relation may write one, and the code is the program's.
fn relation_code(relation: Relation) -> u32
    ensures { result ≡ relation_code relation }
{
    match relation {
        Relation::Exact => 0,
        Relation::Supernet => 1,
        Relation::Subnet => 2,
        Relation::Related => 3,
    }
}

// The network that all bytes write.
fn network_of(s: &[u8]) -> Option<Network>
    ensures { network_found result ≡ network_read s.now }
{
    let (address, rest) = address(s)?;
    let len = numeral(after(b'/', rest)?, LENGTH_LIMIT)?;
    Some(network::network_of(address, len))
}

// The record of a network, on the side of a code.
fn network_record(s: &[u8], relation: Relation, side: u32) -> Option<Head>
    ensures { (d : Side) → side_code d ≡ side → result ≡ network_meant relation d (network_read s.now) }
{
    let n = network_of(s)?;
    Some(lone_head(
        Kind::Network as u32,
        relation_code(relation),
        n.len,
        n.address,
        side,
    ))
}

// A leading `+` means announcements, `-` withdrawals.
fn network_operand(relation: Relation, bytes: &[u8]) -> Option<Head>
    ensures { result ≡ meant_of (meaning (Name.Network relation) bytes.now) }
{
    if let Some(rest) = after(b'+', bytes) {
        return network_record(rest, relation, program::ANNOUNCED);
    }
    if let Some(rest) = after(b'-', bytes) {
        return network_record(rest, relation, program::WITHDRAWN);
    }
    network_record(bytes, relation, program::EITHER)
}

// The record of a peer with an address: alone, or with blanks and an AS number behind it.
fn peer_behind(address: u32, s: &[u8]) -> Option<Head>
    ensures { result ≡ peer_meant (behind_address address s.now) }
{
    let [first, rest @ ..] = s else {
        return Some(lone_head(Kind::Peer as u32, program::BY_ADDRESS, 0, address, 0));
    };
    if !token::is_blank(*first) {
        return None;
    }
    let value = as_numeral(past_blanks(rest))?;
    Some(lone_head(Kind::Peer as u32, program::BY_BOTH, 0, address, value))
}

fn peer(bytes: &[u8]) -> Option<Head>
    ensures { result ≡ meant_of (meaning Name.Peer bytes.now) }
{
    if let Some((address, rest)) = address(bytes) {
        return peer_behind(address, rest);
    }
    let value = as_numeral(bytes)?;
    Some(lone_head(Kind::Peer as u32, program::BY_AS, 0, 0, value))
}

// The code of a comparison with `=` behind it or not, and the bytes behind both.
fn or_equal(plain: u32, equal: u32, s: &[u8]) -> (u32, &[u8])
    ensures { read result.0 result.1.now ≡ either_code plain equal (optional 61 s.now) }
{
    match after(b'=', s) {
        Some(rest) => (equal, rest),
        None => (plain, s),
    }
}

// The code of the comparison at the front, and the bytes behind it.
fn comparison(s: &[u8]) -> (u32, &[u8])
    ensures { read result.0 result.1.now ≡ signed (comparison s.now) }
{
    if let Some(rest) = after(b'=', s) {
        return (program::EQUAL, rest);
    }
    if let Some(rest) = after(b'<', s) {
        return or_equal(program::BELOW, program::AT_MOST, rest);
    }
    if let Some(rest) = after(b'>', s) {
        return or_equal(program::ABOVE, program::AT_LEAST, rest);
    }
    (program::EQUAL, s)
}

// The number that digits say, with any zeros.
fn digits(s: &[u8]) -> Option<u32>
    requires { length s.now ≤ fraction_digits }
    ensures { result ≡ any_digits 0 s.now }
{
    let mut n: u32 = 0;
    for b in s {
        if !b.is_ascii_digit() {
            return None;
        }
        n = 10 * n + (*b - b'0') as u32;
    }
    Some(n)
}

// A fraction of so many digits in microseconds.
fn scaled(n: u32, digits: usize) -> u32
    requires { (digits ≤ fraction_digits) × (n < 10 ^ digits) }
    ensures { result ≡ n * 10 ^ (fraction_digits - digits) }
{
    n * 10u32.pow((FRACTION_DIGITS - digits) as u32)
}

// The microseconds of a fraction: nothing, or a dot and 1 to 6 digits.
fn fraction(s: &[u8]) -> Option<u32>
    ensures { result ≡ fraction_of s.now }
{
    if s.is_empty() {
        return Some(0);
    }
    let written = after(b'.', s)?;
    if written.is_empty() {
        return None;
    }
    if FRACTION_DIGITS < written.len() {
        return None;
    }
    let n = digits(written)?;
    Some(scaled(n, written.len()))
}

fn time(bytes: &[u8]) -> Option<Head>
    ensures { result ≡ meant_of (meaning Name.Time bytes.now) }
{
    let (sign, rest) = comparison(bytes);
    let (seconds, rest) = number(rest, SECONDS_LIMIT)?;
    let micros = fraction(rest)?;
    Some(lone_head(Kind::Time as u32, sign, 0, seconds, micros))
}

// The item at the front: an AS number, `.`, or `!` directly before a number.
fn item(s: &[u8]) -> Option<(Item, &[u8])>
    ensures { said result ≡ item_read s.now }
{
    if let Some((n, rest)) = as_number(s) {
        return Some((Item::Number(n), rest));
    }
    if let Some(rest) = after(b'.', s) {
        return Some((Item::Any, rest));
    }
    let (n, rest) = as_number(after(b'!', s)?)?;
    Some((Item::Other(n), rest))
}

// The community at the front that stands there by name.
fn named_community(s: &[u8]) -> Option<(u32, &[u8])>
    ensures { said result ≡ name_read s.now }
{
    let (word, rest) = s.split_at(token::letters_end(s, 0));
    let community = communities::named(word)?;
    Some((community, rest))
}

// The community at the front that stands there in its halves.
fn halves(s: &[u8]) -> Option<(u32, &[u8])>
    ensures { said result ≡ halves_read s.now }
{
    let (n, rest) = number(s, HALF_LIMIT)?;
    let (m, rest) = number(after(b':', rest)?, HALF_LIMIT)?;
    Some((n * communities::HALF_LIMIT + m, rest))
}

// The community at the front: a name, or two halves with a colon between.
fn community(s: &[u8]) -> Option<(u32, &[u8])>
    ensures { said result ≡ community_read s.now }
{
    if let Some(found) = named_community(s) {
        return Some(found);
    }
    halves(s)
}

// One of a list at the front: a community is a number.
fn one_listed(list: Listed, s: &[u8]) -> Option<(Item, &[u8])>
    ensures { said result ≡ listed_read list s.now }
{
    match list {
        Listed::Items => item(s),
        Listed::Communities => {
            let (value, rest) = community(s)?;
            Some((Item::Number(value), rest))
        }
    }
}

// Those of a list at the front of bytes, as far as they are parted by blanks, each with the bytes behind it and blanks. Where no blank stood
// behind the last, no more are read.
#[derive(Clone, Copy, Debug)]
struct ListedItems<'a> {
    list: Listed,
    rest: &'a [u8],
    more: bool,
}

impl<'a> Iterator for ListedItems<'a> {
    ghost use Rattle.std.specs.Iterator.{item_count};

    type Item = (Item, &'a [u8]);

    ghost next_gives = { GivesListed };

    ghost remaining = { item_count (λ p. (listed_left p).value) };

    fn next(&mut self) -> Option<(Item, &'a [u8])> {
        if !self.more {
            return None;
        }
        let (found, behind) = one_listed(self.list, self.rest)?;
        self.rest = past_blanks(behind);
        self.more = self.rest.len() < behind.len();
        Some((found, self.rest))
    }
}

// Those of a list from the front of bytes on.
fn listed_items(list: Listed, s: &[u8]) -> ListedItems
    ensures left { listed_left result ≡ all_parted (listed_read list) s.now }
    ensures stands { result.rest.now ≡ s.now }
{
    ListedItems {
        list,
        rest: s,
        more: true,
    }
}

// Counts those of a list at the front, as far as they are parted by blanks; and the bytes behind them and blanks.
fn count_listed(list: Listed, s: &[u8]) -> (u32, &[u8])
    requires { length s.now ≤ text_limit }
    ensures count_is { result.0 ≡ length (all_parted (listed_read list) s.now).value }
    ensures left { result.1.now ≡ (all_parted (listed_read list) s.now).rest }
{
    let mut count: u32 = 0;
    let mut rest = s;
    for (_, behind) in listed_items(list, s) {
        count += 1;
        rest = behind;
    }
    (count, rest)
}

// Whether `^` stands at the front of a pattern, and the bytes behind it and blanks.
fn opened(bytes: &[u8]) -> (bool, &[u8])
    ensures starts { result.0 ≡ (pattern_opened bytes.now).value }
    ensures left { result.1.now ≡ (cut is_blank (pattern_opened bytes.now).rest).rest }
{
    let (caret, rest) = optional(b'^', past_blanks(bytes));
    (caret, past_blanks(rest))
}

// A head that so many records follow.
fn list_head(kind: u32, variant: u32, count: u32) -> Head
    ensures { result ≡ record { fields = fields kind variant count 0 0; following = count } }
{
    Head {
        following: count,
        ..lone_head(kind, variant, count, 0, 0)
    }
}

// The variant of a pattern with `^` and `$` or not.
fn ends_code(start: bool, end: bool) -> u32
    ensures { result ≡ ends_code start end }
{
    start as u32 + 2 * (end as u32)
}

// The pattern of an operand: whether `^` and `$` stand and how many items.
fn pattern(bytes: &[u8]) -> Option<Head>
    requires { length bytes.now ≤ text_limit }
    ensures { result ≡ meant_of (meaning Name.Path bytes.now) }
{
    let (caret, rest) = opened(bytes);
    let (count, rest) = count_listed(Listed::Items, rest);
    let (dollar, rest) = optional(b'$', rest);
    if !past_blanks(rest).is_empty() {
        return None;
    }
    let variant = ends_code(caret, dollar);
    if variant + count == 0 {
        return None;
    }
    Some(list_head(Kind::Path as u32, variant, count))
}

// The communities of an operand: how many.
fn communities_operand(bytes: &[u8]) -> Option<Head>
    requires { length bytes.now ≤ text_limit }
    ensures { result ≡ meant_of (meaning Name.Communities bytes.now) }
{
    let (count, rest) = count_listed(Listed::Communities, bytes);
    if count == 0 {
        return None;
    }
    if !rest.is_empty() {
        return None;
    }
    if token::is_blank(bytes[bytes.len() - 1]) {
        return None;
    }
    Some(list_head(Kind::Communities as u32, 0, count))
}

// The fields of an item's record.
fn item_fields(i: Item) -> Fields
    ensures { result ≡ fields_of (item i) }
{
    match i {
        Item::Number(n) => lone_head(Kind::Item as u32, 0, 0, n, 0).fields,
        Item::Other(n) => lone_head(Kind::Item as u32, 1, 0, n, 0).fields,
        Item::Any => lone_head(Kind::Item as u32, 2, 0, 0, 0).fields,
    }
}

// The list of an operand, if its test has one, and the bytes from its first on.
fn list_of(name: Name, bytes: &[u8]) -> Option<(Listed, &[u8])>
    requires { length bytes.now ≤ text_limit }
    ensures { list_records result ≡ following_meant (meaning name bytes.now) }
{
    match name {
        Name::Path => {
            pattern(bytes)?;
            let (_, items) = opened(bytes);
            Some((Listed::Items, items))
        }
        Name::Communities => {
            communities_operand(bytes)?;
            Some((Listed::Communities, bytes))
        }
        _ => None,
    }
}

// Writes the records of those of a list, one after another, and answers the place after them.
fn put_listed(list: Listed, s: &[u8], out: &mut [u8], at: usize) -> usize
    ensures { Written out.old at (encode_all (listed_records list s.now)) out.new result }
{
    let mut place = at;
    for (found, _) in listed_items(list, s) {
        place = program::put_record(out, place, item_fields(found));
    }
    place
}

// What an operand of a test stands for; nothing where it breaks the test's rule.
pub fn meaning(name: Name, bytes: &[u8]) -> Option<Head>
    ensures { result ≡ meant_of (operand_meaning name bytes.now) }
{
    if token::TEXT_LIMIT < bytes.len() {
        return None;
    }
    match name {
        Name::MessageType => code_record(Kind::MessageType as u32, names::type_named(bytes), bytes),
        Name::Attribute => code_record(
            Kind::Attribute as u32,
            names::attribute_named(bytes),
            bytes,
        ),
        Name::Path => pattern(bytes),
        Name::Peer => peer(bytes),
        Name::Time => time(bytes),
        Name::Network(relation) => network_operand(relation, bytes),
        Name::Communities => communities_operand(bytes),
    }
}

// Writes the records that follow the head of the test that an operand stands for, and answers the place after them.
pub fn put_items(name: Name, bytes: &[u8], out: &mut [u8], at: usize) -> usize
    ensures { Written out.old at (encode_all (following_meant (operand_meaning name bytes.now))) out.new result }
{
    if token::TEXT_LIMIT < bytes.len() {
        return at;
    }
    let Some((list, s)) = list_of(name, bytes) else {
        return at;
    };
    put_listed(list, s, out, at)
}
