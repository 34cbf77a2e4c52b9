// Whether a test is true of a message.
#![tactic(auto)]

ghost use Rattle.std.specs.Prelude.{◌≡◌, true, ◌+◌, ◌*◌, drop, Some};
ghost use Rattle.network.specs.Networks.{network_in};
ghost use Rattle.aspath.specs.Members.{members};
ghost use Rattle.aspath.specs.Wire.{width_bytes};
ghost use Rattle.aspath.specs.Patterns.{matches_here, matches_some};
ghost use Rattle.aspath.specs.Cursors.{left};
ghost use Rattle.communities.specs.Communities.{communities_of, holds_all};
ghost use Rattle.attributes.specs.Attribute.{first_of, ask_path, ask_communities};
ghost use Rattle.attributes.specs.Wire.{raws_of, codes};
ghost use Rattle.attributes.specs.Codes.{elem};
ghost use Rattle.attributes.specs.Bodies.{attributes_of};
ghost use Rattle.message.specs.Decode.{networks_of, message_at};
ghost use Rattle.program.specs.Records.{second, item};
ghost use Rattle.program.specs.Kinds.{path_kind, communities_kind};
ghost use Rattle.program.specs.Layout.{relation_is, is_start, is_end, fields_in, decode};
ghost use Rattle.program.specs.Checks.{last_variant, number_variant, is_item, items_stand};
ghost use Rattle.truth.specs.Means.{if_any, some_prefix};
ghost use Rattle.truth.specs.Records.{truth_at};
ghost use Rattle.truth.specs.Matching.{peer_test, time_test, network_test, items_in, numbers_in, matches_from, path_matches, path_test};
ghost use Rattle.truth.specs.Matching.{communities_test};

use aspath::{Item, Members, Width};
use message::Parts;
use network::{Network, Networks, Relation};
use program::{Fields, Kind};

// A second in microseconds, as times are compared.
const SECOND: u64 = program::SECOND as u64;

// Whether an attribute of a section has a code, which is one byte.
fn has_code(section: &[u8], code: u32) -> bool
    ensures { result ≡ elem code (codes (raws_of section.now)) }
{
    if program::CODE_LIMIT <= code {
        return false;
    }
    attributes::find(section, code as u8).is_some()
}

fn same_peer(f: Fields, address: u32, number: u32) -> bool
    ensures { result ≡ peer_test f address number }
{
    match f.variant {
        program::BY_AS => number == f.b,
        program::BY_ADDRESS => address == f.a,
        program::BY_BOTH => address == f.a && number == f.b,
        _ => false,
    }
}

// A time in microseconds.
fn micros(seconds: u32, fraction: u32) -> u64
    ensures { result ≡ seconds * second + fraction }
{
    (seconds as u64) * SECOND + (fraction as u64)
}

// A record's time, whose own fraction is 0, against the operand's.
fn in_time(f: Fields, seconds: u32) -> bool
    ensures { result ≡ time_test f seconds }
{
    let time = micros(seconds, 0);
    let operand = micros(f.a, f.b);
    match f.variant {
        program::EQUAL => time == operand,
        program::BELOW => time < operand,
        program::AT_MOST => time <= operand,
        program::ABOVE => operand < time,
        program::AT_LEAST => operand <= time,
        _ => false,
    }
}

fn relation_of(variant: u32) -> Option<Relation>
    ensures { result ≡ relation_is variant }
{
    match variant {
        0 => Some(Relation::Exact),
        1 => Some(Relation::Supernet),
        2 => Some(Relation::Subnet),
        3 => Some(Relation::Related),
        _ => None,
    }
}

// Whether some prefix of a section stands to an operand as the relation says.
fn some_prefix(section: &[u8], relation: Relation, operand: Network) -> bool
    ensures { result ≡ some_prefix relation (network_in operand) (networks_of section.now) }
{
    Networks(section).any(|prefix| network::related(relation, operand, prefix))
}

// Whether some prefix of the operand's side does.
fn has_prefix(f: Fields, record: &[u8], parts: Parts) -> bool
    ensures { result ≡ network_test f (message_at «record».now parts) }
{
    let Some(relation) = relation_of(f.variant) else {
        return false;
    };
    let operand = Network {
        address: f.a,
        len: f.count,
    };
    let announced = message::part_of(record, parts.announced);
    let withdrawn = message::part_of(record, parts.withdrawn);
    match f.b {
        program::EITHER => some_prefix(announced, relation, operand)
            || some_prefix(withdrawn, relation, operand),
        program::ANNOUNCED => some_prefix(announced, relation, operand),
        program::WITHDRAWN => some_prefix(withdrawn, relation, operand),
        _ => false,
    }
}

// The item at a place where one stands.
fn item_at(records: &[u8], at: usize) -> Item
    requires { is_item last_variant (fields_in (drop at records.now)) ≡ true }
    ensures { decode (drop at records.now) ≡ Some (item result) }
{
    let f = program::fields_at(records, at);
    match f.variant {
        0 => Item::Number(f.a),
        1 => Item::Other(f.a),
        _ => Item::Any,
    }
}

// Whether the items match the members that are left, up to the last where end.
fn matches_here(records: &[u8], count: u32, end: bool, from: Members) -> bool
    requires { items_stand last_variant count records.now ≡ true }
    ensures { (result ≡ matches_here end (items_in count records.now) (left from.entry))
        × (result ≡ matches_from end (items_in count records.now) from.entry) }
{
    let mut path = from;
    for n in 0..count {
        let Some(member) = path.next() else {
            return false;
        };
        if !aspath::takes(item_at(records, program::RECORD_SIZE * n as usize), member) {
            return false;
        }
    }
    !end || path.next().is_none()
}

// Whether they do from one of them on.
fn matches_some(records: &[u8], count: u32, end: bool, path: Members) -> bool
    requires { items_stand last_variant count records.now ≡ true }
    ensures { result ≡ matches_some end (items_in count records.now) (left path.entry) }
{
    let mut from = path;
    while !matches_here(records, count, end, from) {
        if from.next().is_none() {
            return false;
        }
    }
    true
}

// Whether a variant has `^`.
fn is_start(variant: u32) -> bool
    ensures { result ≡ is_start variant }
{
    matches!(variant, 1 | 3)
}

// Whether a variant has `$`.
fn is_end(variant: u32) -> bool
    ensures { result ≡ is_end variant }
{
    2 <= variant
}

// Whether a path record's pattern matches a path; its items are the records behind it.
fn matches(f: Fields, behind: &[u8], path: Members) -> bool
    requires { f.kind ≡ path_kind }
    ensures { result ≡ path_matches f behind.now (left path.entry) }
{
    if program::LAST_ENDS < f.variant || !program::follows(f, behind) {
        return false;
    }
    let count = program::following(f);
    let end = is_end(f.variant);
    if is_start(f.variant) {
        return matches_here(behind, count, end, path);
    }
    matches_some(behind, count, end, path)
}

// Whether a test of the path is true of one.
fn true_of_path(f: Fields, behind: &[u8], path: Members) -> bool
    ensures { result ≡ path_test f behind.now (left path.entry) }
{
    let Some(kind) = program::kind_of(f.kind) else {
        return false;
    };
    match kind {
        Kind::Path => matches(f, behind, path),
        Kind::Loops => aspath::loops(path),
        Kind::Bogon => aspath::has_bogon(path),
        _ => false,
    }
}

// Whether it is true of the AS_PATH of a section: without one it is false.
fn true_of_section(f: Fields, behind: &[u8], section: &[u8], width: Width) -> bool
    ensures { result ≡ if_any (first_of ask_path (attributes_of (width_bytes width) section.now))
        (λ segments. path_test f behind.now (members segments)) }
{
    match attributes::find(section, attributes::AS_PATH) {
        Some(body) => {
            let path = octets::part(section, body.start, body.len);
            true_of_path(f, behind, aspath::members_of(path, width))
        }
        None => false,
    }
}

// Whether each of so many numbers at the front of records stands in a body: the search ends at the first that is missing.
fn holds_each(records: &[u8], count: u32, body: &[u8]) -> bool
    requires { items_stand number_variant count records.now ≡ true }
    ensures { result ≡ holds_all (communities_of body.now) (numbers_in count records.now) }
{
    for n in 0..count {
        let asked = program::fields_at(records, program::RECORD_SIZE * n as usize);
        if !communities::has(body, asked.a) {
            return false;
        }
    }
    true
}

// Whether the COMMUNITY of a section holds every community that a record asks for: without one it doesn't.
fn has_communities(f: Fields, behind: &[u8], section: &[u8], width: Width) -> bool
    requires { f.kind ≡ communities_kind }
    ensures { result ≡ if_any (first_of ask_communities (attributes_of (width_bytes width) section.now))
        (communities_test f behind.now) }
{
    let Some(held) = attributes::find(section, attributes::COMMUNITY) else {
        return false;
    };
    if !program::follows(f, behind) {
        return false;
    }
    holds_each(
        behind,
        program::following(f),
        octets::part(section, held.start, held.len),
    )
}

// Whether the test record at a place of a program is true of a message whose parts stand in a record. All tests but those of
// the type, the peer and the time are false unless it is an UPDATE.
pub fn holds(program: &[u8], at: usize, record: &[u8], parts: Parts) -> bool
    ensures { result ≡ truth_at (message_at «record».now parts) program.now at }
{
    let f = program::fields_at(program, at);
    let Some(kind) = program::kind_of(f.kind) else {
        return false;
    };
    match kind {
        Kind::MessageType => return parts.code == f.a,
        Kind::Peer => return same_peer(f, parts.address, parts.peer),
        Kind::Time => return in_time(f, parts.seconds),
        _ => {}
    }
    if parts.code != message::UPDATE {
        return false;
    }
    let section = message::part_of(record, parts.attributes);
    let behind = octets::rest(octets::rest(program, at), program::RECORD_SIZE);
    let width = parts.width;
    match kind {
        Kind::Network => has_prefix(f, record, parts),
        Kind::Attribute => has_code(section, f.a),
        Kind::Communities => has_communities(f, behind, section, width),
        _ => true_of_section(f, behind, section, width),
    }
}
