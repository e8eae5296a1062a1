// What a parked text on standard input holds, on standard output: a line for each member, its positions, its row; or there the line of a refusal. On standard
// error UNREAD where the input cannot be read, UNWRITTEN where a write fails. One byte more than a stream may have is read, so that a longer text is seen to be
// longer. The room is that of the longest that is said.
#![tactic(auto)]

use std::io;

// What a text holds, or the line of its refusal.
fn write_unparked(out: &impl Print, text: &[u8]) -> io::Result<()> {
    let mut room = [0u8; 1979];
    let said = unpark_say::say_unparked(text, &mut room);
    out.write_all(&room[..said.end])
}

fn main(rt: HostRuntime) {
    let mut input = given::longest_input();
    given::answer(&mut rt.stdin(), &rt.stderr(), &mut input, |text| {
        write_unparked(&rt.stdout(), text)
    });
}
