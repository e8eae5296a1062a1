// The plain stream of standard input on standard output, or one line on standard error: for a refusal, UNREAD where the input cannot be
// read, UNWRITTEN where a write fails. The page measure is given by two words; without them it is 2552 by 3304, as for `pages`. One byte
// more than the limit is read, so that a longer input is seen to be longer. The room is that of the longest plain stream, so 15 is said
// only of a longer one.
#![tactic(auto)]

use rules::LONGEST_STREAM;
use std::io;

// A room for the longest plain stream, in zeros. A function of its own hides them: no proof can count so many.
fn longest_room() -> [u8; LONGEST_STREAM] {
    [0u8; LONGEST_STREAM]
}

// What is said of a stream: a refusal on standard error, its plain stream on standard output.
fn write_plain(
    out: &impl Print,
    err: &impl Print,
    w: usize,
    h: usize,
    job: &[u8],
) -> io::Result<()> {
    let mut room = longest_room();
    let said = plain_say::say_plain(w, h, job, &mut room);
    let text = &room[..said.end];
    if said.refused {
        err.write_all(text)
    } else {
        out.write_all(text)
    }
}

fn main(rt: HostRuntime) {
    let err = rt.stderr();
    let w = given::measure_word(&rt, 1, 2552);
    let h = given::measure_word(&rt, 2, 3304);
    let mut input = given::longest_input();
    given::answer(&mut rt.stdin(), &err, &mut input, |job| {
        write_plain(&rt.stdout(), &err, w, h, job)
    });
}
