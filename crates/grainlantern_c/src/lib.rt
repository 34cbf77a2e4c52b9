// The interface for C: numbers for answers, their values in four places that the caller lends.
#![tactic(auto)]

ghost use Rattle.std.specs.Prelude.{◌≡◌, List, [], ◌∷◌, ℕ, Some, None, Option};
ghost use Rattle.walk.specs.Steps.{step_at};
ghost use Rattle.filter.specs.Functions.{our_compiler};
ghost use Rattle.judge.specs.Functions.{judging_of, our_judge};
ghost use Rattle.grainlantern_c.specs.Judgements.{judged_for_c};
ghost use Rattle.grainlantern_c.specs.Programs.{compiled_for_c};
ghost use Rattle.grainlantern_c.specs.Steps.{step_for_c};

use judge::{Refusal, Tally, Verdict};
use walk::Step;

// An answer's number, with its value in the first place and zeros in those kept for later versions.
fn answer(value: &mut [u64; 4], number: u32, first: u64) -> u32
    ensures { (result ≡ number) × (value.new ≡ first ∷ 0 ∷ 0 ∷ 0 ∷ []) }
{
    *value = [first, 0, 0, 0];
    number
}

// Compiles a filter: 0 and its program's bytes, or the refusal's number and its place.
#[unsafe(no_mangle)]
pub extern "C" fn grainlantern_compile(text: &[u8], program: &mut [u8], value: &mut [u64; 4]) -> u32
    ensures { (result, value.new, program.new) ≡ compiled_for_c (our_compiler text.now program.old) }
{
    match filter::compile(text, program) {
        Ok(bytes) => answer(value, 0, bytes as u64),
        Err(refused) => answer(value, u32::from(refused.refusal), refused.place as u64),
    }
}

// What judging answered, as a number and its values.
#[tactic(auto, unfolding(judge::specs::Functions::value_of))]
fn answer_judged(value: &mut [u64; 4], judged: Result<Verdict, Refusal>) -> u32
    ensures { (lines : List ℕ) (counting : Option Tally) → (result, value.new, lines, counting)
        ≡ judged_for_c (judging_of judged lines counting) }
{
    match judged {
        Ok(Verdict::Kept { spent, bytes }) => {
            *value = [spent.steps as u64, bytes as u64, 0, 0];
            1
        }
        Ok(Verdict::Dropped { spent }) => answer(value, 0, spent.steps as u64),
        Err(refusal) => answer(value, refusal.into(), 0),
    }
}

// Judges a record with a program: 1 kept with the steps and the bytes of its lines, 0 dropped with the steps, or the refusal's number.
#[unsafe(no_mangle)]
pub extern "C" fn grainlantern_judge(
    program: &[u8],
    bytes: &[u8],
    lines: &mut [u8],
    value: &mut [u64; 4],
) -> u32
    ensures { (result, value.new, lines.new, None)
        ≡ judged_for_c (our_judge program.now bytes.now lines.old None) }
{
    let judged = judge::judge(program, bytes, lines);
    answer_judged(value, judged)
}

// The same, counted in the tally that the caller lends.
#[unsafe(no_mangle)]
pub extern "C" fn grainlantern_judge_counted(
    program: &[u8],
    bytes: &[u8],
    lines: &mut [u8],
    tally: &mut Tally,
    value: &mut [u64; 4],
) -> u32
    ensures { (result, value.new, lines.new, Some tally.new)
        ≡ judged_for_c (our_judge program.now bytes.now lines.old (Some tally.old)) }
{
    let judged = judge::judge_counted(program, bytes, lines, tally);
    answer_judged(value, judged)
}

// What stands at a place of a run of records: 0 a record and its bytes, 1 done, 2 cut and the bytes left.
#[unsafe(no_mangle)]
pub extern "C" fn grainlantern_step(records: &[u8], at: usize, value: &mut [u64; 4]) -> u32
    ensures { (result, value.new) ≡ step_for_c (step_at records.now at) }
{
    let step = walk::step_at(records, at);
    match step {
        Step::Record { start: _, len } => answer(value, 0, len as u64),
        Step::Done => answer(value, 1, 0),
        Step::Cut { left } => answer(value, 2, left as u64),
    }
}
