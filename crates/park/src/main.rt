// The parked text of the state behind a job on standard input, on standard output, or there the line of a refusal; on standard error UNREAD where the
// input cannot be read, UNWRITTEN where a write fails. The page measure is given by two words; without them it is 2552 by 3304, as for `pages`. A third word
// gives how many items of the job are done; without it all are, since no job has as many. One byte more than the limit is read, so that a longer input is
// seen to be longer. The room is that of the longest text, so 15 is never said.
#![tactic(auto)]

use std::io;

// The text of a job, or the line of its refusal.
fn write_parked(out: &impl Print, w: usize, h: usize, job: &[u8], items: usize) -> io::Result<()> {
    let mut page = given::largest_page();
    let mut room = [0u8; 1905];
    let said = park_say::say_parked(&mut page, w, h, job, items, &mut room);
    out.write_all(&room[..said.end])
}

fn main(rt: HostRuntime) {
    let w = given::measure_word(&rt, 1, 2552);
    let h = given::measure_word(&rt, 2, 3304);
    let items = given::items_word(&rt, 3, 2097153);
    let mut input = given::longest_input();
    given::answer(&mut rt.stdin(), &rt.stderr(), &mut input, |job| {
        write_parked(&rt.stdout(), w, h, job, items)
    });
}
