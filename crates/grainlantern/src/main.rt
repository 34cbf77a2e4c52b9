// Filters MRT records: `grainlantern FILTERFILE < RECORDS` writes the lines of the records that the filter keeps.
#![tactic(auto)]

ghost use Rattle.std.specs.Prelude.{◌≡◌, ◌≤◌, length, MatchResult};
ghost use Rattle.grainlantern.specs.Refusal.{refusal_text, RefusedAt};
ghost use Rattle.grainlantern.specs.Output.{Lent, kept_lines, OfRun};

use judge::{Refusal, Tally, Verdict};
use run::Ran;
use std::fs;
use std::io::Read;
use std::rt::Env;

// No path that can be opened is longer.
const PATH_ROOM: usize = 4096;

// So much of the input is read.
const INPUT_ROOM: usize = 65536;

// As many bytes hold the lines of any record.
const LINE_ROOM: usize = 65536;

// One byte more than a text may have, so that one that is too long is seen.
const FILTER_ROOM: usize = token::TEXT_LIMIT + 1;

// A read that failed, and how many bytes came before it.
#[derive(Clone, Copy, Debug, PartialEq, Eq)]
struct ReadFailed {
    before: usize,
}

// Reads until the room is full or the input ends, and answers how many bytes were read.
fn read_full<R: Read>(input: &mut R, room: &mut [u8]) -> Result<usize, ReadFailed>
    ensures { MatchResult result (λ n. n ≤ length room.new) (λ failed. failed.before ≤ length room.new) }
{
    let mut length = 0;
    // each read says how far it came: no index that counts up
    while length < room.len() {
        match input.read(&mut room[length..]) {
            Err(_) => return Err(ReadFailed { before: length }),
            Ok(0) => return Ok(length),
            Ok(more) => length += more,
        }
    }
    Ok(length)
}

// Reads a file and answers its bytes, as far as the room goes. A read that fails gives 0: what came before it would be another filter.
fn read_file<R: Read>(file: &mut R, room: &mut [u8]) -> usize {
    read_full(file, room).unwrap_or(0)
}

// Reads the input and answers the bytes read, those before a read that failed too.
fn read_input<R: Read>(input: &mut R, room: &mut [u8]) -> usize
    ensures { result ≤ length room.new }
{
    read_full(input, room).unwrap_or_else(|failed| failed.before)
}

// Reads the filter that the first argument names, and answers its bytes. No argument, a name that is too long or no text, and a file that
// can't be read are an empty text.
fn read_filter(rt: &HostRuntime, text: &mut [u8]) -> usize {
    let mut path = [0u8; PATH_ROOM];
    let Ok(length) = rt.arg(1, &mut path) else {
        return 0;
    };
    let Ok(name) = str::from_utf8(&path[..length]) else {
        return 0;
    };
    let Ok(mut file) = fs::open(rt, name) else {
        return 0;
    };
    read_file(&mut file, text)
}

// Why a filter isn't compiled, and where.
#[derive(Clone, Copy, Debug, PartialEq, Eq)]
struct RefusedFilter {
    number: u32,
    place: u32,
}

// The text of a refusal, written over the start of a buffer.
fn refusal_text(out: &mut [u8], refused: RefusedFilter) -> &[u8]
    requires { 33 ≤ length out.old }
    ensures { result.now ≡ refusal_text refused.number refused.place }
{
    let at = octets::put_bytes(out, 0, b"refused ");
    let at = octets::put_decimal(out, at, refused.number);
    let at = octets::put_bytes(out, at, b" at ");
    let at = octets::put_decimal(out, at, refused.place);
    let end = octets::put(out, at, b'\n');
    let whole = &out[..];
    octets::part(whole, 0, end)
}

// The one writer of a refusal: by one write, so that no part of it follows a torn one.
fn write_refusal(rt: &HostRuntime, refused: RefusedFilter, text: &[u8])
    requires refused_at { RefusedAt refused.number refused.place }
    requires text_value { text.now ≡ refusal_text refused.number refused.place }
{
    let _ = rt.write_all(text);
}

// Says why a filter isn't compiled, and where.
fn refuse(rt: &HostRuntime, refused: RefusedFilter)
    requires { RefusedAt refused.number refused.place }
{
    let mut out = [0u8; 33];
    let text = refusal_text(&mut out, refused);
    write_refusal(rt, refused, text);
}

// The lines to hand on for an answer: those of a record that is kept.
fn kept_lines(judged: Result<Verdict, Refusal>, lines: &[u8]) -> &[u8]
    ensures { result.now ≡ kept_lines judged lines.now }
{
    match judged {
        Ok(Verdict::Kept { bytes, .. }) => octets::part(lines, 0, bytes),
        Ok(Verdict::Dropped { .. }) | Err(_) => &[],
    }
}

// The one writer of lines: it answers whether the next ones may follow. The program and the records say whose lines they are.
// `Lent` stands at each function of a program: it names the text, so a struct could hold it only truncated, as a ghost field is a proposition.
fn write_lines(rt: &HostRuntime, program: &[u8], records: &[u8], lines: &[u8]) -> bool
    requires lent { Lent program.now }
    requires of_run { OfRun program.now records.now lines.now }
{
    rt.write_all(lines).is_ok()
}

// Judges the records one after another, from the first byte on, and hands on the lines of each.
fn judge_records(rt: &HostRuntime, program: &[u8], records: &[u8], lines: &mut [u8])
    requires { Lent program.now }
{
    let mut at = 0;
    let mut tally = Tally {
        seen: 0,
        kept: 0,
        dropped: 0,
        refused: 0,
    };
    loop {
        let ran = run::run_step(program, records, at, lines, tally);
        let Ran::Judged {
            judged,
            tally: after,
            next,
        } = ran
        else {
            return;
        };
        if !write_lines(rt, program, records, kept_lines(judged, lines)) {
            return;
        }
        at = next;
        tally = after;
    }
}

// Filters the first bytes of the input.
fn filter_records(rt: &HostRuntime, program: &[u8])
    requires { Lent program.now }
{
    let mut records = [0u8; INPUT_ROOM];
    let mut lines = [0u8; LINE_ROOM];
    let length = read_input(&mut rt.stdin(), &mut records);
    judge_records(rt, program, &records[..length], &mut lines);
}

fn main(rt: HostRuntime) {
    // a byte more than a text may have, and the longest program
    let mut text = [0u8; FILTER_ROOM];
    let mut program = [0u8; program::PROGRAM_LIMIT];
    let length = read_filter(&rt, &mut text);
    match filter::compile(octets::part(&text, 0, length), &mut program) {
        Err(refused) => {
            let number = u32::from(refused.refusal);
            let place = refused.place as u32;
            refuse(&rt, RefusedFilter { number, place });
        }
        Ok(size) => filter_records(&rt, octets::part(&program, 0, size)),
    }
}
