// Tokens of a text: the next one from a place on, its bytes, where blanks end, the first forbidden byte and the quote that isn't closed.
#![tactic(auto)]

ghost use Rattle.std.specs.Prelude.{◌≡◌, ◌+◌, ◌-◌, ◌<◌, ℕ, Bool, length};
ghost use Rattle.token.specs.Texts.{allowed};
ghost use Rattle.token.specs.Next.{is_blank, is_letter, is_inner, Computes, run_end, lexeme, quote_at, start_at, next_at};
ghost use Rattle.token.specs.Next.{part, bytes_in, allowed_front, unclosed_at};

// The most bytes of a text.
pub const TEXT_LIMIT: usize = 4096;
// The printed bytes that a text may have.
const FIRST_PRINTED: u8 = 0x20;

const LAST_PRINTED: u8 = 0x7E;

// What stands at a place: nothing up to the end, a token, or a quote that isn't closed.
#[derive(Clone, Copy, Debug, PartialEq, Eq)]
pub enum Sort {
    End,
    Open,
    Close,
    Bang,
    Word,
    Quoted,
    Unclosed,
}

// A sort, the place of its first byte and the place behind its last.
#[derive(Clone, Copy, Debug, PartialEq, Eq)]
pub struct Lexeme {
    pub sort: Sort,
    pub start: usize,
    pub end: usize,
}

// Whether a byte is a blank: space, tab, LF.
#[tactic(auto, unfolding(crate::specs::Next::is_blank))]
pub fn is_blank(b: u8) -> bool
    ensures { result ≡ is_blank b }
{
    matches!(b, b' ' | b'\t' | b'\n')
}

// Whether a word may have a byte.
#[tactic(auto, unfolding(crate::specs::Next::is_letter))]
fn letter(b: u8) -> bool
    ensures { result ≡ is_letter b }
{
    !matches!(b, b'(' | b')' | b'!' | b'\'') && !is_blank(b)
}

// Whether a quoted token may have a byte.
#[tactic(auto, unfolding(crate::specs::Next::is_inner))]
fn inner(b: u8) -> bool
    ensures { result ≡ is_inner b }
{
    b != b'\''
}

// Whether a text may have a byte. By comparisons: with matches! a scan takes several times as long.
fn permitted(b: u8) -> bool
    ensures { result ≡ allowed b }
{
    b == b'\t' || b == b'\n' || (FIRST_PRINTED..=LAST_PRINTED).contains(&b)
}

// Where the bytes from a place on that pass a test end. By places: on short runs, as most are, position over the rest takes longer.
fn run_end<F: Fn(u8) -> bool>(text: &[u8], at: usize, passes: F) -> usize
    requires { F.IsAlwaysCallable passes }
    ensures { (test : ℕ → Bool) → Computes (F.post passes) test → result ≡ run_end test text.now at }
{
    for n in at..text.len() {
        if !passes(text[n]) {
            return n;
        }
    }
    at.max(text.len())
}

// Where the blanks from a place on end.
pub fn blanks_end(text: &[u8], at: usize) -> usize
    ensures { result ≡ run_end is_blank text.now at }
{
    run_end(text, at, is_blank)
}

// Where the letters of a word from a place on end.
pub fn letters_end(text: &[u8], at: usize) -> usize
    ensures { result ≡ run_end is_letter text.now at }
{
    run_end(text, at, letter)
}

fn span(sort: Sort, start: usize, end: usize) -> Lexeme
    ensures { result ≡ lexeme sort start end }
{
    Lexeme { sort, start, end }
}

// From a quote up to the one that closes it.
#[tactic(auto, unfolding(crate::specs::Next::quote_at))]
fn quote(text: &[u8], start: usize) -> Lexeme
    requires { start < length text.now }
    ensures { result ≡ quote_at text.now start }
{
    let behind = start + 1;
    let end = run_end(text, behind, inner);
    if text.len() <= end {
        return span(Sort::Unclosed, start, text.len());
    }
    span(Sort::Quoted, start, end + 1)
}

// What begins at a place where no blank stands.
#[tactic(auto, unfolding(crate::specs::Next::start_at))]
fn begins(text: &[u8], start: usize) -> Lexeme
    ensures { result ≡ start_at text.now start }
{
    let Some(b) = text.get(start) else {
        return span(Sort::End, text.len(), text.len());
    };
    match b {
        b'(' => span(Sort::Open, start, start + 1),
        b')' => span(Sort::Close, start, start + 1),
        b'!' => span(Sort::Bang, start, start + 1),
        b'\'' => quote(text, start),
        _ => span(Sort::Word, start, letters_end(text, start)),
    }
}

// The next token from a place on.
pub fn next(text: &[u8], at: usize) -> Lexeme
    ensures { result ≡ next_at text.now at }
{
    let start = blanks_end(text, at);
    begins(text, start)
}

// What a text holds from a place up to another.
fn between(text: &[u8], start: usize, end: usize) -> &[u8]
    ensures { result.now ≡ part text.now start end }
{
    octets::part(text, start, end.saturating_sub(start))
}

// What a text holds from a place up to another without the first and the last byte, which are quotes.
fn inside(text: &[u8], start: usize, end: usize) -> &[u8]
    ensures { result.now ≡ part text.now (start + 1) (end - 1) }
{
    if end <= start {
        return &text[..0];
    }
    between(text, start + 1, end - 1)
}

// The bytes of a word, and those between the quotes of a quoted token.
#[tactic(auto, unfolding(crate::specs::Next::bytes_of_sort))]
pub fn bytes(text: &[u8], lexeme: Lexeme) -> &[u8]
    ensures { result.now ≡ bytes_in text.now lexeme }
{
    match lexeme.sort {
        Sort::Word => between(text, lexeme.start, lexeme.end),
        Sort::Quoted => inside(text, lexeme.start, lexeme.end),
        _ => &[],
    }
}

// The place of the first forbidden byte, the length where there is none: no Option, since what it promises stays word for word.
pub fn forbidden(text: &[u8]) -> usize
    ensures { result ≡ allowed_front text.now }
{
    run_end(text, 0, permitted)
}

// The place of the quote that isn't closed, the length where there is none: that is where an End ends.
pub fn unclosed(text: &[u8]) -> usize
    ensures { result ≡ unclosed_at text.now }
{
    let mut at = 0;
    // from lexeme to lexeme: no index that counts up
    while at < text.len() {
        let found = next(text, at);
        if found.sort == Sort::Unclosed {
            return found.start;
        }
        at = found.end;
    }
    at
}
