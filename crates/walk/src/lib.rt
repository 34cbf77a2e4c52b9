// The walk over a run of records: what stands at a place, and a reader that goes on from step to step.
#![tactic(auto)]

ghost use Rattle.std.specs.Prelude.{◌≡◌, ◌<◌, ◌^◌};
ghost use Rattle.walk.specs.Steps.{step_at, record_of, place_after};
ghost use Rattle.walk.specs.Readers.{fresh, step_on, moved};

// What stands at a place: the paper names three outcomes, so it is no Option and no Result.
#[derive(Clone, Copy, Debug, PartialEq, Eq)]
pub enum Step {
    // A whole record: where it starts, and its bytes with its header.
    Record { start: usize, len: usize },
    // Nothing is left.
    Done,
    // Too few bytes are left for a header, or for the body that the header announces.
    Cut { left: usize },
}

// A reader over a run: the bytes, and the place of the next step.
#[derive(Clone, Copy, Debug, PartialEq, Eq)]
pub struct Reader<'a> {
    pub bytes: &'a [u8],
    pub at: usize,
}

// What stands at a place; past the end nothing is left.
#[tactic(auto, unfolding(crate::specs::Steps::step_at))]
pub fn step_at(bytes: &[u8], at: usize) -> Step
    ensures { result ≡ step_at bytes.now at }
{
    if bytes.len() <= at {
        return Step::Done;
    }
    let left = bytes.len() - at;
    if left < header::SIZE {
        return Step::Cut { left };
    }
    let body = octets::number(bytes, at + header::LENGTH_AT, header::LENGTH_SIZE) as usize;
    if left - header::SIZE < body {
        return Step::Cut { left };
    }
    Step::Record {
        start: at,
        len: header::SIZE + body,
    }
}

// The record that a step hands out, and no bytes for any other answer.
pub fn record_of(bytes: &[u8], step: Step) -> &[u8]
    ensures { result.now ≡ record_of bytes.now step }
{
    match step {
        Step::Record { start, len } => octets::part(bytes, start, len),
        Step::Done | Step::Cut { .. } => &[],
    }
}

// Where the walk goes on after a step at a place.
fn place_after(step: Step, at: usize) -> usize
    requires { place_after step at < 2 ^ 64 }
    ensures { result ≡ place_after step at }
{
    match step {
        Step::Record { start, len } => start + len,
        Step::Done | Step::Cut { .. } => at,
    }
}

// A reader at the start of a run.
pub fn read_run<'a>(bytes: &'a [u8]) -> Reader<'a>
    ensures { result ≡ fresh bytes.entry }
{
    Reader { bytes, at: 0 }
}

// The next step: the reader's place moves behind a record, and stays after done or cut.
pub fn next(reader: &mut Reader) -> Step
    ensures { (result ≡ step_on reader.old) × (reader.new ≡ moved reader.old) }
{
    let at = reader.at;
    let step = step_at(reader.bytes, at);
    reader.at = place_after(step, at);
    step
}
