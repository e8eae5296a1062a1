// What a program says of a job by the outcome of the call that wrote its text: that text, or one line with the number of the refusal.
#![tactic(auto)]

ghost use Rattle.rules.specs.Given.{verdict_of};
ghost use Rattle.report_verdict.specs.Said.{length_of, SaysVerdict};

use common::Writer;
use report_fault::write_refused;
use rules::Refusal;

// Where what is said ends in the room, and whether it is a refusal: a program writes the one and ends by the other.
#[derive(Drop)]
pub struct Saying {
    pub refused: bool,
    pub end: usize,
}

// A text of so many bytes that stands at the front of the room, or the line of the refusal, written there.
pub fn say(outcome: Result<usize, Refusal>, room: &mut [u8]) -> Saying
    ensures { SaysVerdict (verdict_of outcome) (length_of outcome) room.old result room.new }
{
    match outcome {
        Ok(end) => Saying {
            refused: false,
            end,
        },
        Err(why) => {
            let mut out = Writer { room, at: 0 };
            write_refused(why, &mut out);
            Saying {
                refused: true,
                end: out.at,
            }
        }
    }
}
