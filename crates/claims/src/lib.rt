// The demands as claims, and a function that meets the third at its arguments.
#![tactic(auto)]

ghost use Rattle.std.specs.Prelude.{◌≡◌};
ghost use Rattle.judge.specs.Functions.{judging_of, our_judge};
ghost use Rattle.claims.specs.Answered.{Claimed};

use filter::Refused;
use judge::{Refusal, Tally, Verdict};

// A text that compiles: the bytes of its program, and what judging a record with these answers.
#[derive(Clone, Copy, Debug, PartialEq, Eq)]
pub struct Judged {
    pub bytes: usize,
    pub judged: Result<Verdict, Refusal>,
}

// What compiling and judging answer, and the tally after them, where there is one.
#[derive(Clone, Copy, Debug, PartialEq, Eq)]
pub struct Answered {
    pub answer: Result<Judged, Refused>,
    pub counting: Option<Tally>,
}

// Judges with a tally or none, and answers the tally after it too.
fn judge_in(
    program: &[u8],
    bytes: &[u8],
    lines: &mut [u8],
    counting: Option<Tally>,
) -> (Result<Verdict, Refusal>, Option<Tally>)
    ensures { judging_of result.0 lines.new result.1 ≡ our_judge program.now bytes.now lines.old counting }
{
    let Some(tally) = counting else {
        return (judge::judge(program, bytes, lines), None);
    };
    let counted = judge::judge_with(program, bytes, lines, tally);
    (counted.judged, Some(counted.tally))
}

// Compiles a text and judges a record with the program.
pub fn compile_and_judge(
    text: &[u8],
    program: &mut [u8],
    bytes: &[u8],
    lines: &mut [u8],
    counting: Option<Tally>,
) -> Answered
    ensures { Claimed text.now program.old bytes.now lines.old
        counting result.answer program.new lines.new result.counting }
{
    match filter::compile(text, program) {
        Ok(size) => {
            let (judged, counting) = judge_in(
                octets::part(program, 0, size),
                bytes,
                lines,
                counting,
            );
            Answered {
                answer: Ok(Judged {
                    bytes: size,
                    judged,
                }),
                counting,
            }
        }
        Err(refused) => Answered {
            answer: Err(refused),
            counting,
        },
    }
}
