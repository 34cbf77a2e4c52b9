// Programs: records of 16 bytes. Whether bytes are a valid program.
#![tactic(auto)]

ghost use Rattle.std.specs.Prelude.{◌≡◌, ◌/◌, ℕ, Bool, List, drop, get_or, length};
ghost use Rattle.octets.specs.Rows.{sized, whole};
ghost use Rattle.octets.specs.Writes.{Written};
ghost use Rattle.program.specs.Kinds.{kind_is, class_is};
ghost use Rattle.program.specs.Layout.{record_size, fields_in, laid};
ghost use Rattle.program.specs.Checks.{right_code, right_path, right_item, right_peer, right_network, right_time, right_bare, right_counted};
ghost use Rattle.program.specs.Checks.{right_fields, right_record, each_record, Decides, is_test_class, is_item, item_stands, items_stand, last_item};
ghost use Rattle.program.specs.Checks.{following_in, follows_in, group_size, lands_well, is_valid};

// The bytes of a record.
pub const RECORD_SIZE: usize = 16;
// The most records of a program, and its bytes then.
pub const WEIGHT_LIMIT: usize = 512;

pub const PROGRAM_LIMIT: usize = RECORD_SIZE * WEIGHT_LIMIT;
// A count is less; a pass leaves room for itself and for what it decides on.
const COUNT_LIMIT: u32 = WEIGHT_LIMIT as u32;

const PASS_LIMIT: u32 = COUNT_LIMIT - 2;
// A code is less; a fraction of a second in microseconds is less.
pub const CODE_LIMIT: u32 = 256;

pub const SECOND: u32 = 1000000;

// The variants of a peer and of a time, and the sides of a network in B. Each is read at one place: an enum would add its decoder and say no more
// than the names do.
pub const BY_AS: u32 = 1;

pub const BY_ADDRESS: u32 = 2;

pub const BY_BOTH: u32 = 3;

pub const EQUAL: u32 = 0;

pub const BELOW: u32 = 1;

pub const AT_MOST: u32 = 2;

pub const ABOVE: u32 = 3;

pub const AT_LEAST: u32 = 4;

pub const EITHER: u32 = 0;

pub const ANNOUNCED: u32 = 1;

pub const WITHDRAWN: u32 = 2;

// The last variants of a path, an item, an item that is a number, a network, a side and a comparison.
pub const LAST_ENDS: u32 = 3;

const LAST_ITEM: u32 = 2;

const LAST_NUMBER: u32 = 0;

pub const LAST_RELATION: u32 = 3;

const LAST_SIDE: u32 = WITHDRAWN;

const LAST_COMPARISON: u32 = AT_LEAST;

// The kinds of records, each by its number.
#[derive(Clone, Copy, Debug, PartialEq, Eq)]
pub enum Kind {
    MessageType = 1,
    Attribute = 2,
    Path = 3,
    Item = 4,
    Peer = 5,
    Loops = 6,
    Bogon = 7,
    Network = 8,
    Time = 9,
    Flip = 10,
    And = 11,
    Or = 12,
    Communities = 13,
}

// What a record of a kind is.
#[derive(Clone, Copy, Debug, PartialEq, Eq)]
pub enum Class {
    Test,
    Item,
    Flip,
    Pass,
}

// The fields of a record: kind, variant, count, A and B. The kind is the number that its bytes hold, which may be no kind's: a program
// that isn't valid has fields too.
#[derive(Clone, Copy, Debug, PartialEq, Eq)]
pub struct Fields {
    pub kind: u32,
    pub variant: u32,
    pub count: u32,
    pub a: u32,
    pub b: u32,
}

// What judging spends: the steps.
#[derive(Clone, Copy, Debug, PartialEq, Eq)]
pub struct Spent {
    pub steps: u32,
}

// The kind that a number stands for, if it is one.
#[tactic(auto, unfolding(crate::specs::Kinds::kind_is))]
pub fn kind_of(number: u32) -> Option<Kind>
    ensures { result ≡ kind_is number }
{
    match number {
        1 => Some(Kind::MessageType),
        2 => Some(Kind::Attribute),
        3 => Some(Kind::Path),
        4 => Some(Kind::Item),
        5 => Some(Kind::Peer),
        6 => Some(Kind::Loops),
        7 => Some(Kind::Bogon),
        8 => Some(Kind::Network),
        9 => Some(Kind::Time),
        10 => Some(Kind::Flip),
        11 => Some(Kind::And),
        12 => Some(Kind::Or),
        13 => Some(Kind::Communities),
        _ => None,
    }
}

// The class of the kind that a number stands for.
#[tactic(auto, unfolding(crate::specs::Kinds::class_is))]
pub fn class_of(number: u32) -> Option<Class>
    ensures { result ≡ class_is number }
{
    Some(match kind_of(number)? {
        Kind::Item => Class::Item,
        Kind::Flip => Class::Flip,
        Kind::And | Kind::Or => Class::Pass,
        Kind::MessageType
        | Kind::Attribute
        | Kind::Path
        | Kind::Peer
        | Kind::Loops
        | Kind::Bogon
        | Kind::Network
        | Kind::Time
        | Kind::Communities => Class::Test,
    })
}

// The fields of the record at a place; past the end they are 0.
pub fn fields_at(program: &[u8], at: usize) -> Fields
    ensures { result ≡ fields_in (drop at program.now) }
{
    let record = octets::rest(program, at);
    Fields {
        kind: octets::number(record, 0, 1),
        variant: octets::number(record, 1, 1),
        count: octets::number(record, 2, 2),
        a: octets::number(record, 4, 4),
        b: octets::number(record, 8, 4),
    }
}

// Writes a record of these fields.
pub fn put_record(out: &mut [u8], at: usize, f: Fields) -> usize
    ensures { Written out.old at (laid f) out.new result }
{
    let variant = octets::put_number(out, at, f.kind, 1);
    let count = octets::put_number(out, variant, f.variant, 1);
    let a = octets::put_number(out, count, f.count, 2);
    let b = octets::put_number(out, a, f.a, 4);
    let zeros = octets::put_number(out, b, f.b, 4);
    octets::put_number(out, zeros, 0, 4)
}

fn right_code(f: Fields) -> bool
    ensures { result ≡ right_code f }
{
    f.variant == 0 && f.count == 0 && f.a < CODE_LIMIT && f.b == 0
}

fn right_path(f: Fields) -> bool
    ensures { result ≡ right_path f }
{
    f.variant <= LAST_ENDS
        && f.count < COUNT_LIMIT
        && f.a == 0
        && f.b == 0
        && f.variant + f.count != 0
}

fn right_item(f: Fields) -> bool
    ensures { result ≡ right_item f }
{
    f.variant <= LAST_ITEM && f.count == 0 && f.b == 0 && (f.variant != LAST_ITEM || f.a == 0)
}

fn right_peer(f: Fields) -> bool
    ensures { result ≡ right_peer f }
{
    if f.count != 0 {
        return false;
    }
    match f.variant {
        BY_AS => f.a == 0,
        BY_ADDRESS => f.b == 0,
        BY_BOTH => true,
        _ => false,
    }
}

fn right_network(f: Fields) -> bool
    ensures { result ≡ right_network f }
{
    f.variant <= LAST_RELATION
        && f.count <= network::ADDRESS_BITS
        && f.b <= LAST_SIDE
        && network::network_of(f.a, f.count).address == f.a
}

fn right_time(f: Fields) -> bool
    ensures { result ≡ right_time f }
{
    f.variant <= LAST_COMPARISON && f.count == 0 && f.b < SECOND
}

fn right_bare(f: Fields) -> bool
    ensures { result ≡ right_bare f }
{
    f.variant == 0 && f.count == 0 && f.a == 0 && f.b == 0
}

// A count of one or more, up to the last that may stand.
fn right_counted(f: Fields, last: u32) -> bool
    ensures { result ≡ right_counted last f }
{
    f.variant == 0 && 1 <= f.count && f.count <= last && f.a == 0 && f.b == 0
}

// Whether the fields of a kind are in their ranges and those that it leaves unused zero.
#[tactic(auto, unfolding(crate::specs::Checks::right_fields))]
fn right_fields(f: Fields) -> bool
    ensures { result ≡ right_fields f }
{
    let Some(kind) = kind_of(f.kind) else {
        return false;
    };
    match kind {
        Kind::MessageType | Kind::Attribute => right_code(f),
        Kind::Path => right_path(f),
        Kind::Item => right_item(f),
        Kind::Peer => right_peer(f),
        Kind::Loops | Kind::Bogon | Kind::Flip => right_bare(f),
        Kind::Network => right_network(f),
        Kind::Time => right_time(f),
        Kind::And | Kind::Or => right_counted(f, PASS_LIMIT),
        Kind::Communities => right_counted(f, COUNT_LIMIT - 1),
    }
}

// Whether the record at the front is one that compiling some text could give.
fn right_record(records: &[u8]) -> bool
    ensures { result ≡ right_record records.now }
{
    right_fields(fields_at(records, 0)) && octets::number(records, 12, 4) == 0
}

// Whether a test holds of the bytes from each record on. One test of the length for each record: by places each of its fields takes one.
fn each_record<F: Fn(&[u8]) -> bool>(program: &[u8], test: F) -> bool
    requires { F.IsAlwaysCallable test }
    ensures { (holds : List ℕ → Bool) → Decides (F.post test) holds
        → result ≡ each_record holds (length program.now / record_size) program.now }
{
    let mut rest = program;
    while RECORD_SIZE <= rest.len() {
        if !test(rest) {
            return false;
        }
        rest = octets::rest(rest, RECORD_SIZE);
    }
    true
}

// Whether every record is.
fn all_right(program: &[u8]) -> bool
    ensures { result ≡ each_record right_record (length program.now / record_size) program.now }
{
    each_record(program, right_record)
}

// Whether a record is an item of a variant up to the last that may stand.
#[tactic(auto, using(crate::proofs::KindLaws::kind_test))]
fn holds_item(f: Fields, last: u32) -> bool
    ensures { result ≡ is_item last f }
{
    kind_of(f.kind) == Some(Kind::Item) && f.variant <= last
}

// Whether one stands at the front.
fn item_stands(records: &[u8], last: u32) -> bool
    ensures { result ≡ item_stands last records.now }
{
    RECORD_SIZE <= records.len() && holds_item(fields_at(records, 0), last)
}

// Whether so many of them do.
fn items_stand(records: &[u8], count: u32, last: u32) -> bool
    ensures { result ≡ items_stand last count records.now }
{
    (0..count).all(|n| item_stands(octets::rest(records, RECORD_SIZE * n as usize), last))
}

// How many records follow a record of these fields: the items of a path, or communities.
#[tactic(auto, using(crate::proofs::KindLaws::kind_test), unfolding(crate::specs::Checks::following_in))]
pub fn following(f: Fields) -> u32
    ensures { result ≡ following_in f }
{
    let kind = kind_of(f.kind);
    if kind == Some(Kind::Path) || kind == Some(Kind::Communities) {
        return f.count;
    }
    0
}

// The last variant of the items that may follow it.
#[tactic(auto, using(crate::proofs::KindLaws::kind_test), unfolding(crate::specs::Checks::last_item))]
fn last_item(f: Fields) -> u32
    ensures { result ≡ last_item f }
{
    if kind_of(f.kind) == Some(Kind::Communities) {
        return LAST_NUMBER;
    }
    LAST_ITEM
}

// Whether what may follow a record of these fields stands at the front of records.
pub fn follows(f: Fields, records: &[u8]) -> bool
    ensures { result ≡ follows_in f records.now }
{
    items_stand(records, following(f), last_item(f))
}

// The bytes of the record at the front with those that follow it, if it and they may stand there.
fn group_size(records: &[u8]) -> Option<usize>
    ensures { result ≡ sized (group_size records.now) }
{
    if records.len() < RECORD_SIZE {
        return None;
    }
    let f = fields_at(records, 0);
    match class_of(f.kind)? {
        Class::Test => {
            if !follows(f, octets::rest(records, RECORD_SIZE)) {
                return None;
            }
            Some(RECORD_SIZE + RECORD_SIZE * following(f) as usize)
        }
        Class::Item => None,
        Class::Flip | Class::Pass => Some(RECORD_SIZE),
    }
}

// Whether each test is followed by what may follow it, which stands nowhere else.
fn grouped(program: &[u8]) -> bool
    ensures { result ≡ whole group_size program.now }
{
    let mut rest = program;
    while let Some(size) = group_size(rest) {
        rest = octets::rest(rest, size);
    }
    rest.is_empty()
}

// Whether the record at the front is no pass, or one that lands on a record that is no item or exactly at the end.
fn lands(records: &[u8]) -> bool
    ensures { result ≡ lands_well records.now }
{
    let f = fields_at(records, 0);
    if class_of(f.kind) != Some(Class::Pass) {
        return true;
    }
    let target = RECORD_SIZE + RECORD_SIZE * f.count as usize;
    target <= records.len() && class_of(octets::number(records, target, 1)) != Some(Class::Item)
}

// Whether every pass does.
fn landing(program: &[u8]) -> bool
    ensures { result ≡ each_record lands_well (length program.now / record_size) program.now }
{
    each_record(program, lands)
}

// Whether a program begins with a test.
fn starts(program: &[u8]) -> bool
    ensures { result ≡ is_test_class (class_is (get_or program.now 0 0)) }
{
    class_of(octets::number(program, 0, 1)) == Some(Class::Test)
}

// Whether bytes are a valid program.
#[tactic(auto, unfolding(crate::specs::Checks::is_valid))]
pub fn is_valid(program: &[u8]) -> bool
    ensures { result ≡ is_valid program.now }
{
    RECORD_SIZE <= program.len()
        && program.len() <= PROGRAM_LIMIT
        && program.len() % RECORD_SIZE == 0
        && all_right(program)
        && starts(program)
        && grouped(program)
        && landing(program)
}
