// A run of records: one step takes the next record, judges it and counts it.
#![tactic(auto)]

ghost use Rattle.std.specs.Prelude.{◌≡◌, Some};
ghost use Rattle.judge.specs.Functions.{our_judge};
ghost use Rattle.run.specs.Runs.{runner_of};
ghost use Rattle.run.specs.Stepping.{stepped};

use judge::{Refusal, Tally, Verdict};
use walk::Step;

#[derive(Clone, Copy, Debug, PartialEq, Eq)]
pub enum Ran {
    // A record was judged: the answer, the tally after it, and the place where the run goes on.
    Judged {
        judged: Result<Verdict, Refusal>,
        tally: Tally,
        next: usize,
    },
    // Nothing is left.
    Done,
    // Too few bytes are left for a header, or for the body that the header announces.
    Cut {
        left: usize,
    },
}

// The step at a place: the record that stands there is judged with the program, and counted.
pub fn run_step(program: &[u8], bytes: &[u8], at: usize, lines: &mut [u8], tally: Tally) -> Ran
    ensures { stepped result lines.new
        ≡ runner_of our_judge program.now bytes.now at lines.old (Some tally) }
{
    let step = walk::step_at(bytes, at);
    match step {
        Step::Record { start, len } => {
            let record = walk::record_of(bytes, step);
            let counted = judge::judge_with(program, record, lines, tally);
            Ran::Judged {
                judged: counted.judged,
                tally: counted.tally,
                next: start + len,
            }
        }
        Step::Done => Ran::Done,
        Step::Cut { left } => Ran::Cut { left },
    }
}
