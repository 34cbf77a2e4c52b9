// Judging: a program over a record.
#![tactic(auto)]

ghost use Rattle.std.specs.Prelude.{◌≡◌, true, false, ◌+◌, ◌*◌, ◌≤◌, length, Some, None};
ghost use Rattle.message.specs.Decode.{message_at, decode_of};
ghost use Rattle.program.specs.Records.{weight_limit};
ghost use Rattle.program.specs.Spent.{one_step, together};
ghost use Rattle.program.specs.Layout.{record_size};
ghost use Rattle.program.specs.Checks.{is_valid};
ghost use Rattle.program.specs.Machine.{machine};
ghost use Rattle.truth.specs.Records.{record_truth};
ghost use Rattle.judge.specs.declared.Refusal.TheVariants.{Record, Lines};
ghost use Rattle.judge.specs.Tallies.{is_full};
ghost use Rattle.judge.specs.Answers.{number_of, lines_after};
ghost use Rattle.judge.specs.Judging.{decoded};
ghost use Rattle.judge.specs.Functions.{judging_of, our_judge};
ghost use Rattle.judge.specs.Executing.{tally_of, JudgedAs, passed_over, state_after};

use line::Short;
use message::{Parts, Refusal as RecordRefusal};
use program::{Class, Fields, Kind, Spent};

// A count that can't grow.
const FULL_COUNT: u32 = u32::MAX;

// Counts of the records that were judged. A caller in C lends one.
#[repr(C)]
#[derive(Clone, Copy, Debug, PartialEq, Eq)]
pub struct Tally {
    pub seen: u32,
    pub kept: u32,
    pub dropped: u32,
    pub refused: u32,
}

// Why a record isn't judged, or its lines aren't written.
#[derive(Clone, Copy, Debug, PartialEq, Eq)]
pub enum Refusal {
    Program,
    Count,
    Record(RecordRefusal),
    Lines,
}

// Whether a record is kept: what was spent, and the bytes of its lines.
#[derive(Clone, Copy, Debug, PartialEq, Eq)]
pub enum Verdict {
    Kept { spent: Spent, bytes: usize },
    Dropped { spent: Spent },
}

// An answer, and the tally after it.
#[derive(Clone, Copy, Debug, PartialEq, Eq)]
pub struct Counted {
    pub judged: Result<Verdict, Refusal>,
    pub tally: Tally,
}

// The machine between two records: the place of the next one, the flag and what is spent so far.
#[derive(Clone, Copy, Debug, PartialEq, Eq)]
struct MachineState {
    at: usize,
    flag: bool,
    spent: Spent,
}

// The number of a refusal.
#[tactic(auto, unfolding(crate::specs::Answers::number_of))]
impl From<Refusal> for u32 {
    ghost from_gives = { λ refusal n. n ≡ number_of refusal };

    fn from(refusal: Refusal) -> u32 {
        match refusal {
            Refusal::Program => 20,
            Refusal::Count => 21,
            Refusal::Record(why) => why.into(),
            Refusal::Lines => 19,
        }
    }
}

impl From<RecordRefusal> for Refusal {
    ghost from_gives = { λ why refusal. refusal ≡ Record why };

    fn from(why: RecordRefusal) -> Self {
        Self::Record(why)
    }
}

impl From<Short> for Refusal {
    ghost from_gives = { λ _ refusal. refusal ≡ Lines };

    fn from(_short: Short) -> Self {
        Self::Lines
    }
}

// One step more.
fn stepped(spent: Spent) -> Spent
    requires { spent.steps ≤ record_size * weight_limit }
    ensures { result ≡ together spent one_step }
{
    Spent {
        steps: spent.steps + 1,
    }
}

// The place past so many records.
fn past(next: usize, count: u32) -> usize
    requires { next ≤ record_size * weight_limit }
    ensures { result ≡ next + record_size * count }
{
    next + program::RECORD_SIZE * (count as usize)
}

// The records that a pass passes over: none where the flag doesn't decide.
#[tactic(auto, using(program::proofs::KindLaws::kind_test), unfolding(crate::specs::Executing::passed_over))]
fn passed_over(f: Fields, flag: bool) -> u32
    ensures { result ≡ passed_over f flag }
{
    if (program::kind_of(f.kind) == Some(Kind::And)) == flag {
        return 0;
    }
    f.count
}

// The state after the record at its place. What can't stand there is passed over.
fn step(program: &[u8], bytes: &[u8], parts: Parts, state: MachineState) -> MachineState
    requires { (state.at + record_size ≤ record_size * weight_limit) × (state.spent.steps ≤ state.at) }
    ensures { result ≡ state_after (message_at bytes.now parts) program.now state }
{
    let f = program::fields_at(program, state.at);
    let next = MachineState {
        at: state.at + program::RECORD_SIZE,
        ..state
    };
    match program::class_of(f.kind) {
        Some(Class::Test) => MachineState {
            at: past(next.at, program::following(f)),
            flag: truth::holds(program, state.at, bytes, parts),
            spent: stepped(state.spent),
        },
        Some(Class::Flip) => MachineState {
            flag: !state.flag,
            spent: stepped(state.spent),
            ..next
        },
        Some(Class::Pass) => MachineState {
            at: past(next.at, passed_over(f, state.flag)),
            spent: stepped(state.spent),
            ..next
        },
        Some(Class::Item) => next,
        None => next,
    }
}

// Runs a program over a message. Only the tests that it reaches are run.
fn execute(program: &[u8], bytes: &[u8], parts: Parts) -> MachineState
    requires { is_valid program.now ≡ true }
    ensures { (result.flag, result.spent) ≡ machine (record_truth (message_at bytes.now parts)) program.now }
{
    let mut state = MachineState {
        at: 0,
        flag: false,
        spent: Spent { steps: 0 },
    };
    while program::RECORD_SIZE <= octets::rest(program, state.at).len() {
        state = step(program, bytes, parts, state);
    }
    state
}

// Judges a record with a program that is valid, and writes the lines of one that is kept.
fn judge_valid(program: &[u8], bytes: &[u8], lines: &mut [u8]) -> Result<Verdict, Refusal>
    requires { is_valid program.now ≡ true }
    ensures judged_as { JudgedAs result
        (decoded program.now bytes.now (length lines.old) (decode_of bytes.now)) }
    ensures lines_after { lines.new
        ≡ lines_after
        (decoded program.now bytes.now (length lines.old) (decode_of bytes.now))
        lines.old }
{
    let decoded = message::decode(bytes);
    let Ok(parts) = decoded else {
        return Err(decoded.unwrap_err().into());
    };
    let ran = execute(program, bytes, parts);
    let spent = ran.spent;
    if !ran.flag {
        return Ok(Verdict::Dropped { spent });
    }
    let size = line::write(bytes, parts, lines)?;
    Ok(Verdict::Kept { spent, bytes: size })
}

// Judges a record with a program.
#[tactic(auto, unfolding(crate::specs::Judging::judge_of, crate::specs::Functions::value_of))]
pub fn judge(program: &[u8], bytes: &[u8], lines: &mut [u8]) -> Result<Verdict, Refusal>
    ensures { judging_of result lines.new None ≡ our_judge program.now bytes.now lines.old None }
{
    if !program::is_valid(program) {
        return Err(Refusal::Program);
    }
    judge_valid(program, bytes, lines)
}

// Whether a count of a tally can't grow.
#[tactic(auto, unfolding(crate::specs::Tallies::is_full))]
fn is_full(tally: Tally) -> bool
    ensures { result ≡ is_full tally }
{
    [tally.seen, tally.kept, tally.dropped, tally.refused].contains(&FULL_COUNT)
}

// The tally after an answer: of the refusals only 11 to 18 are counted.
#[tactic(auto, unfolding(crate::specs::Executing::tally_of, crate::specs::Tallies::is_full))]
fn count(judged: Result<Verdict, Refusal>, tally: Tally) -> Tally
    requires { is_full tally ≡ false }
    ensures { result ≡ tally_of judged tally }
{
    match judged {
        Ok(Verdict::Kept { .. }) => Tally {
            seen: tally.seen + 1,
            kept: tally.kept + 1,
            ..tally
        },
        Ok(Verdict::Dropped { .. }) => Tally {
            seen: tally.seen + 1,
            dropped: tally.dropped + 1,
            ..tally
        },
        Err(Refusal::Record(_)) => Tally {
            seen: tally.seen + 1,
            refused: tally.refused + 1,
            ..tally
        },
        Err(Refusal::Program | Refusal::Count | Refusal::Lines) => tally,
    }
}

// Judges a record with a program, and counts it.
#[tactic(auto, unfolding(crate::specs::Judging::judge_of, crate::specs::Functions::value_of))]
pub fn judge_with(program: &[u8], bytes: &[u8], lines: &mut [u8], tally: Tally) -> Counted
    ensures { judging_of result.judged lines.new (Some result.tally)
        ≡ our_judge program.now bytes.now lines.old (Some tally) }
{
    if !program::is_valid(program) {
        return Counted {
            judged: Err(Refusal::Program),
            tally,
        };
    }
    if is_full(tally) {
        return Counted {
            judged: Err(Refusal::Count),
            tally,
        };
    }
    let judged = judge_valid(program, bytes, lines);
    Counted {
        judged,
        tally: count(judged, tally),
    }
}

// Judges a record with a program, and counts it in the tally that is lent.
pub fn judge_counted(
    program: &[u8],
    bytes: &[u8],
    lines: &mut [u8],
    tally: &mut Tally,
) -> Result<Verdict, Refusal>
    ensures { judging_of result lines.new (Some tally.new)
        ≡ our_judge program.now bytes.now lines.old (Some tally.old) }
{
    let counted = judge_with(program, bytes, lines, *tally);
    *tally = counted.tally;
    counted.judged
}
