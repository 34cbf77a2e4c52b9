// Prints what the code says of the known records of document 01, of one record for each refusal, and of runs of records.
#![tactic(auto)]

ghost use Rattle.std.specs.Prelude.{◌≡◌};
ghost use Rattle.walk.specs.Steps.{step_of};

use network::Networks;
use walk::Step;

// A run of three records: R, of 83 bytes; R32, of 84, which is R with a prefix of 32 bits; and R33, of 85, with one of 33.
const RUN: [u8; 252] = [
    0x60, 0xB8, 0xD2, 0xCB, 0x00, 0x10, 0x00, 0x04, 0x00, 0x00, 0x00, 0x47, 0x00, 0x03, 0x09, 0x7C,
    0x00, 0x00, 0xFB, 0xF4, 0x00, 0x00, 0x00, 0x01, 0xC0, 0x00, 0x02, 0x01, 0xC0, 0x00, 0x02, 0x02,
    0xFF, 0xFF, 0xFF, 0xFF, 0xFF, 0xFF, 0xFF, 0xFF, 0xFF, 0xFF, 0xFF, 0xFF, 0xFF, 0xFF, 0xFF, 0xFF,
    0x00, 0x33, 0x02, 0x00, 0x00, 0x00, 0x18, 0x40, 0x01, 0x01, 0x00, 0x40, 0x02, 0x0A, 0x02, 0x02,
    0x00, 0x03, 0x09, 0x7C, 0x00, 0x00, 0x0D, 0x05, 0x40, 0x03, 0x04, 0xC0, 0x00, 0x02, 0x01, 0x18,
    0x0A, 0x01, 0x02,
    // R32
    0x60, 0xB8, 0xD2, 0xCB, 0x00, 0x10, 0x00, 0x04, 0x00, 0x00, 0x00, 0x48, 0x00, 0x03, 0x09, 0x7C,
    0x00, 0x00, 0xFB, 0xF4, 0x00, 0x00, 0x00, 0x01, 0xC0, 0x00, 0x02, 0x01, 0xC0, 0x00, 0x02, 0x02,
    0xFF, 0xFF, 0xFF, 0xFF, 0xFF, 0xFF, 0xFF, 0xFF, 0xFF, 0xFF, 0xFF, 0xFF, 0xFF, 0xFF, 0xFF, 0xFF,
    0x00, 0x34, 0x02, 0x00, 0x00, 0x00, 0x18, 0x40, 0x01, 0x01, 0x00, 0x40, 0x02, 0x0A, 0x02, 0x02,
    0x00, 0x03, 0x09, 0x7C, 0x00, 0x00, 0x0D, 0x05, 0x40, 0x03, 0x04, 0xC0, 0x00, 0x02, 0x01, 0x20,
    0x0A, 0x01, 0x02, 0x03,
    // R33
    0x60, 0xB8, 0xD2, 0xCB, 0x00, 0x10, 0x00, 0x04, 0x00, 0x00, 0x00, 0x49, 0x00, 0x03, 0x09, 0x7C,
    0x00, 0x00, 0xFB, 0xF4, 0x00, 0x00, 0x00, 0x01, 0xC0, 0x00, 0x02, 0x01, 0xC0, 0x00, 0x02, 0x02,
    0xFF, 0xFF, 0xFF, 0xFF, 0xFF, 0xFF, 0xFF, 0xFF, 0xFF, 0xFF, 0xFF, 0xFF, 0xFF, 0xFF, 0xFF, 0xFF,
    0x00, 0x35, 0x02, 0x00, 0x00, 0x00, 0x18, 0x40, 0x01, 0x01, 0x00, 0x40, 0x02, 0x0A, 0x02, 0x02,
    0x00, 0x03, 0x09, 0x7C, 0x00, 0x00, 0x0D, 0x05, 0x40, 0x03, 0x04, 0xC0, 0x00, 0x02, 0x01, 0x21,
    0x0A, 0x01, 0x02, 0x03, 0x04,
];

fn say(rt: &HostRuntime, text: &[u8]) {
    let _ = rt.write_all(text);
}

fn say_number(rt: &HostRuntime, n: u32) {
    let mut digits = [0u8; 10];
    let end = octets::put_decimal(&mut digits, 0, n);
    say(rt, octets::part(&digits, 0, end));
}

fn say_refused(rt: &HostRuntime, n: u32) {
    say(rt, b"refused ");
    say_number(rt, n);
    say(rt, b"\n");
}

// The lines of a record, laid into the room lent, or the refusal.
fn tell(rt: &HostRuntime, record: &[u8], room: &mut [u8]) {
    match message::decode(record) {
        Err(refusal) => say_refused(rt, refusal.into()),
        Ok(parts) => match line::write(record, parts, room) {
            Ok(n) => say(rt, octets::part(room, 0, n)),
            Err(line::Short) => say_refused(rt, 19),
        },
    }
}

// R with another byte at each of some places.
fn tell_changed(rt: &HostRuntime, changes: &[(usize, u8)]) {
    let mut run = RUN;
    for (at, b) in changes {
        octets::put(&mut run, *at, *b);
    }
    let mut room = [0u8; 256];
    tell(rt, octets::part(&run, 0, 83), &mut room);
}

// A prefix on its own.
fn tell_network(rt: &HostRuntime, prefix: &[u8]) {
    let Some(first) = Networks(prefix).next() else {
        say(rt, b"no prefix\n");
        return;
    };
    let mut text = [0u8; 18];
    let end = network::put_network(&mut text, 0, first);
    say(rt, octets::part(&text, 0, end));
    say(rt, b"\n");
}

fn refusals(rt: &HostRuntime) {
    say(rt, b"11, a length that is not the rest: ");
    tell_changed(rt, &[(11, 0x48)]);
    say(rt, b"12, subtype 2: ");
    tell_changed(rt, &[(7, 2)]);
    say(rt, b"13, family 2: ");
    tell_changed(rt, &[(23, 2)]);
    say(rt, b"14, no marker: ");
    tell_changed(rt, &[(32, 0xFE)]);
    say(rt, b"15, 200 withdrawn bytes: ");
    tell_changed(rt, &[(52, 200)]);
    say(rt, b"16, an attribute of 200 bytes: ");
    tell_changed(rt, &[(74, 200)]);
    say(rt, b"16, ORIGIN twice: ");
    tell_changed(rt, &[(73, 1)]);
    say(rt, b"17, ORIGIN 3: ");
    tell_changed(rt, &[(58, 3)]);
    say(
        rt,
        b"16 and 17 both, ORIGIN 3 and an attribute of 200 bytes: ",
    );
    tell_changed(rt, &[(58, 3), (74, 200)]);
    say(rt, b"18, a prefix of 25 bits in three bytes: ");
    tell_changed(rt, &[(79, 25)]);
}

// What a reader answers at its third step over a run.
fn third_step(bytes: &[u8]) -> Step
    ensures { result ≡ step_of bytes.now 2 }
{
    let mut reader = walk::read_run(bytes);
    walk::next(&mut reader);
    walk::next(&mut reader);
    walk::next(&mut reader)
}

// A place or a length; none here needs more than 32 bits.
fn say_size(rt: &HostRuntime, n: usize) {
    if let Ok(n) = u32::try_from(n) {
        say_number(rt, n);
    }
}

// The third step over the run's bytes up to a place.
fn tell_third(rt: &HostRuntime, end: usize) {
    let run = RUN;
    match third_step(octets::part(&run, 0, end)) {
        Step::Record { start, len } => {
            say(rt, b"a record at ");
            say_size(rt, start);
            say(rt, b" of ");
            say_size(rt, len);
            say(rt, b" bytes\n");
        }
        Step::Done => say(rt, b"done\n"),
        Step::Cut { left } => {
            say(rt, b"cut, ");
            say_size(rt, left);
            say(rt, b" bytes left\n");
        }
    }
}

fn third_steps(rt: &HostRuntime) {
    say(rt, b"third step over R, R32, R33: ");
    tell_third(rt, 252);
    say(rt, b"third step over R, R32: ");
    tell_third(rt, 167);
    say(rt, b"third step over R, R32, 84 bytes: ");
    tell_third(rt, 251);
    say(rt, b"third step over R, R32, 11 bytes: ");
    tell_third(rt, 178);
    say(rt, b"third step over R: ");
    tell_third(rt, 83);
    say(rt, b"third step over R, 11 bytes: ");
    tell_third(rt, 94);
}

fn main(rt: HostRuntime) {
    say(&rt, b"R: ");
    tell_changed(&rt, &[(0, 0x60)]);
    let run = RUN;
    say(&rt, b"R in 71 bytes: ");
    let mut room = [0u8; 71];
    tell(&rt, octets::part(&run, 0, 83), &mut room);
    say(&rt, b"R in 70 bytes: ");
    let mut short = [0u8; 70];
    tell(&rt, octets::part(&run, 0, 83), &mut short);
    say(&rt, b"17 0A 01 03: ");
    tell_network(&rt, b"\x17\x0A\x01\x03");
    say(&rt, b"20 0A 01 02 03: ");
    tell_network(&rt, b"\x20\x0A\x01\x02\x03");
    say(&rt, b"21 0A 01 02 03 04: ");
    tell_network(&rt, b"\x21\x0A\x01\x02\x03\x04");
    say(&rt, b"R with 17 0A 01 03: ");
    tell_changed(&rt, &[(79, 0x17), (82, 0x03)]);
    let mut lines = [0u8; 256];
    say(&rt, b"R with 20 0A 01 02 03: ");
    tell(&rt, octets::part(&run, 83, 84), &mut lines);
    say(&rt, b"R with 21 0A 01 02 03 04: ");
    tell(&rt, octets::part(&run, 167, 85), &mut lines);
    refusals(&rt);
    third_steps(&rt);
}
