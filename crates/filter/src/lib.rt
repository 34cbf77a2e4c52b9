// Filters: from a text to its program.
#![tactic(auto)]

ghost use Rattle.std.specs.Prelude.{◌≡◌, false, ◌≤◌, ◌<◌, ◌+◌, ◌*◌, length, ℕ, Some, Ok, Err};
ghost use Rattle.filter.specs.declared.Refusal.TheVariants.{Level};
ghost use Rattle.filter.specs.declared.Refused.{Refused};
ghost use Rattle.std.proofs.lemmas.List.Edits.{sets};
ghost use Rattle.token.specs.Texts.{text_limit};
ghost use Rattle.token.specs.Next.{Closed, next_at, token_in};
ghost use Rattle.filter.specs.Words.{name as a_name};
ghost use Rattle.filter.specs.Grammar.{expression as an_expression, conjunction as a_conjunction, factor as a_factor};
ghost use Rattle.filter.specs.Levels.{level_limit};
ghost use Rattle.filter.specs.Answers.{number_of};
ghost use Rattle.filter.specs.Functions.{compiling_of, our_compiler};
ghost use Rattle.program.specs.Layout.{record_size, fields, laid};
ghost use Rattle.filter.specs.Parsing.{role_said, role_in, refused_at, operand_sort, opens_level, Ready, PartSays, TestSays, Whole};

use names::Row;
use network::Relation;
use operand::Name;
use program::{Fields, Kind};
use token::{Lexeme, Sort};

// The most levels open at once.
const LEVEL_LIMIT: usize = 32;

// Why a text isn't compiled, in the order of the table.
#[derive(Clone, Copy, Debug, PartialEq, Eq)]
pub enum Refusal {
    Length,
    Byte,
    Quote,
    Token,
    Operand,
    Level,
    Weight,
    Room,
}

// A text that isn't compiled: why, and the place.
#[derive(Clone, Copy, Debug, PartialEq, Eq)]
pub struct Refused {
    pub refusal: Refusal,
    pub place: usize,
}

// What a word says.
#[derive(Clone, Copy, Debug, PartialEq, Eq)]
enum Role {
    And,
    Or,
    Loops,
    Bogons,
    Named(Name),
}

// A part that was read: the token behind it, and where its records end in the program.
#[derive(Clone, Copy, Debug, PartialEq, Eq)]
struct Upto {
    next: Lexeme,
    n: usize,
}

impl Refusal {
    fn at(self, place: usize) -> Refused
        ensures { result ≡ refused_at self place }
    {
        Refused {
            refusal: self,
            place,
        }
    }
}

// The number of a refusal.
impl From<Refusal> for u32 {
    ghost from_gives = { λ refusal n. n ≡ number_of refusal };

    #[tactic(auto, unfolding(crate::specs::Answers::number_of))]
    fn from(refusal: Refusal) -> u32 {
        match refusal {
            Refusal::Length => 1,
            Refusal::Byte => 2,
            Refusal::Quote => 3,
            Refusal::Token => 4,
            Refusal::Operand => 5,
            Refusal::Level => 6,
            Refusal::Weight => 7,
            Refusal::Room => 8,
        }
    }
}

// The words of the language, and what each says.
const VOCABULARY: [Row<Role>; 14] = [
    (b"-and", Role::And),
    (b"-or", Role::Or),
    (b"-loops", Role::Loops),
    (b"-bogon-asn", Role::Bogons),
    (b"-type", Role::Named(Name::MessageType)),
    (b"-attr", Role::Named(Name::Attribute)),
    (b"-aspath", Role::Named(Name::Path)),
    (b"-peer", Role::Named(Name::Peer)),
    (b"-exact", Role::Named(Name::Network(Relation::Exact))),
    (b"-supernet", Role::Named(Name::Network(Relation::Supernet))),
    (b"-subnet", Role::Named(Name::Network(Relation::Subnet))),
    (b"-related", Role::Named(Name::Network(Relation::Related))),
    (b"-timestamp", Role::Named(Name::Time)),
    (b"-communities", Role::Named(Name::Communities)),
];

// What a token says: nothing unless it is a word.
fn role_of(text: &[u8], t: Lexeme) -> Option<Role>
    ensures { role_said result ≡ role_in (token_in text.now t) }
{
    match t.sort {
        Sort::Word => names::value_in(&VOCABULARY, token::bytes(text, t)),
        _ => None,
    }
}

// Whether a token may be an operand.
fn is_operand(sort: Sort) -> bool
    ensures { result ≡ operand_sort sort }
{
    matches!(sort, Sort::Word | Sort::Quoted)
}

// Writes record n, which has no numbers but its kind and count.
fn put_plain(out: &mut [u8], n: usize, kind: u32, count: usize)
    requires { (n ≤ text_limit) × (count ≤ text_limit) }
    ensures { out.new ≡ sets out.old (record_size * n) (laid (fields kind 0 count 0 0)) }
{
    let fields = Fields {
        kind,
        variant: 0,
        count: count as u32,
        a: 0,
        b: 0,
    };
    program::put_record(out, program::RECORD_SIZE * n, fields);
}

// A test with no operand.
fn plain_test(text: &[u8], t: Lexeme, kind: u32, out: &mut [u8], n: usize) -> Upto
    requires { Ready text.now t n }
    ensures behind { (result.next ≡ next_at text.now t.end) × (result.n ≡ n + 1) }
    ensures wrote { out.new ≡ sets out.old (record_size * n) (laid (fields kind 0 0 0 0)) }
{
    put_plain(out, n, kind, 0);
    Upto {
        next: token::next(text, t.end),
        n: n + 1,
    }
}

// A test that has an operand, which is the token behind its name.
fn named(text: &[u8], name: Name, word: Lexeme, out: &mut [u8], n: usize) -> Result<Upto, Refused>
    requires { Ready text.now word n × (role_in (token_in text.now word) ≡ Some (a_name name)) }
    ensures { TestSays text.now word n out.old result out.new }
{
    let t = token::next(text, word.end);
    if !is_operand(t.sort) {
        return Err(Refusal::Token.at(t.start));
    }
    let bytes = token::bytes(text, t);
    let Some(head) = operand::meaning(name, bytes) else {
        return Err(Refusal::Operand.at(t.start));
    };
    let next = token::next(text, t.end);
    let items = program::put_record(out, program::RECORD_SIZE * n, head.fields);
    operand::put_items(name, bytes, out, items);
    Ok(Upto {
        next,
        n: n + 1 + (head.following as usize),
    })
}

// A test; its records go from record n on.
fn test(text: &[u8], t: Lexeme, out: &mut [u8], n: usize) -> Result<Upto, Refused>
    requires { Ready text.now t n × (opens_level t.sort ≡ false) }
    ensures { TestSays text.now t n out.old result out.new }
{
    match role_of(text, t) {
        Some(Role::Loops) => Ok(plain_test(text, t, Kind::Loops as u32, out, n)),
        Some(Role::Bogons) => Ok(plain_test(text, t, Kind::Bogon as u32, out, n)),
        Some(Role::Named(name)) => named(text, name, t, out, n),
        _ => Err(Refusal::Token.at(t.start)),
    }
}

// The level that a token opens, if one more is allowed.
fn deeper(level: usize, t: Lexeme) -> Result<usize, Refused>
    ensures allowed { (inside : ℕ) → result ≡ Ok inside → (level < level_limit) × (inside ≡ level + 1) }
    ensures refused { (r : Refused) → result ≡ Err r → (level_limit ≤ level) × (r ≡ refused_at Level t.start) }
{
    if LEVEL_LIMIT <= level {
        return Err(Refusal::Level.at(t.start));
    }
    Ok(level + 1)
}

// `!` factor, `(` expression `)`, or a test.
#[cycle(conjunction_expression_factor)]
fn factor(text: &[u8], level: usize, t: Lexeme, out: &mut [u8], n: usize) -> Result<Upto, Refused>
    requires { (level ≤ level_limit) × Ready text.now t n }
    ensures { PartSays a_factor text.now level t n out.old result out.new }
{
    match t.sort {
        Sort::Bang => {
            let inside = deeper(level, t)?;
            let part = factor(text, inside, token::next(text, t.end), out, n)?;
            put_plain(out, part.n, Kind::Flip as u32, 0);
            Ok(Upto {
                next: part.next,
                n: part.n + 1,
            })
        }
        Sort::Open => {
            let inside = deeper(level, t)?;
            let part = expression(text, inside, token::next(text, t.end), out, n)?;
            let Sort::Close = part.next.sort else {
                return Err(Refusal::Token.at(part.next.start));
            };
            Ok(Upto {
                next: token::next(text, part.next.end),
                n: part.n,
            })
        }
        _ => test(text, t, out, n),
    }
}

// Factors joined by `-and`. A pass is written when the count of the records that it passes over is known.
// A function for each part of the grammar: this and the next differ in word, kind and side, and taking the side as a closure is no plainer.
#[cycle(conjunction_expression_factor)]
fn conjunction(
    text: &[u8],
    level: usize,
    t: Lexeme,
    out: &mut [u8],
    n: usize,
) -> Result<Upto, Refused>
    requires { (level ≤ level_limit) × Ready text.now t n }
    ensures { PartSays a_conjunction text.now level t n out.old result out.new }
{
    let mut part = factor(text, level, t, out, n)?;
    while let Some(Role::And) = role_of(text, part.next) {
        let pass = part.n;
        part = factor(text, level, token::next(text, part.next.end), out, pass + 1)?;
        put_plain(out, pass, Kind::And as u32, part.n - pass - 1);
    }
    Ok(part)
}

// Conjunctions joined by `-or`.
#[cycle(conjunction_expression_factor)]
fn expression(
    text: &[u8],
    level: usize,
    t: Lexeme,
    out: &mut [u8],
    n: usize,
) -> Result<Upto, Refused>
    requires { (level ≤ level_limit) × Ready text.now t n }
    ensures { PartSays an_expression text.now level t n out.old result out.new }
{
    let mut part = conjunction(text, level, t, out, n)?;
    while let Some(Role::Or) = role_of(text, part.next) {
        let pass = part.n;
        part = conjunction(text, level, token::next(text, part.next.end), out, pass + 1)?;
        put_plain(out, pass, Kind::Or as u32, part.n - pass - 1);
    }
    Ok(part)
}

// A whole text, whose records go over the start of a buffer, as far as it reaches: how many there are.
fn parse(text: &[u8], out: &mut [u8]) -> Result<usize, Refused>
    requires { (length text.now ≤ text_limit) × Closed text.now 0 }
    ensures { Whole text.now out.old result out.new }
{
    let part = expression(text, 0, token::next(text, 0), out, 0)?;
    let Sort::End = part.next.sort else {
        return Err(Refusal::Token.at(part.next.start));
    };
    Ok(part.n)
}

// Compiles a text: its program over the start of a buffer and the program's bytes, or a refusal and the buffer as it was.
pub fn compile(text: &[u8], program: &mut [u8]) -> Result<usize, Refused>
    ensures { compiling_of result program.new ≡ our_compiler text.now program.old }
{
    if token::TEXT_LIMIT < text.len() {
        return Err(Refusal::Length.at(0));
    }
    let byte = token::forbidden(text);
    if byte < text.len() {
        return Err(Refusal::Byte.at(byte));
    }
    let quote = token::unclosed(text);
    if quote < text.len() {
        return Err(Refusal::Quote.at(quote));
    }
    // Measured on no buffer first: a refusal writes nothing.
    let weight = parse(text, &mut program[..0])?;
    if program::WEIGHT_LIMIT < weight {
        return Err(Refusal::Weight.at(0));
    }
    let size = program::RECORD_SIZE * weight;
    if program.len() < size {
        return Err(Refusal::Room.at(0));
    }
    parse(text, program)?;
    Ok(size)
}
