// The report of standard input on standard output, or one line on standard error: UNREAD where the input cannot be read, UNWRITTEN where
// the report cannot be written. One byte more than the limit is read, so that a longer input is seen to be longer. The room is that of the
// longest report, so by the contract of `write_report` what is written is the whole report of what was read.
#![tactic(auto)]

ghost use Rattle.std.specs.Prelude.{◌≡◌, length};
ghost use Rattle.report_laws.specs.Bound.{longest_report};

// A room for the longest report, in zeros. A function of its own hides the zeros, of which no proof can count so many.
fn longest_room() -> [u8; 2228358]
    ensures { longest_report ≡ length result }
{
    [0u8; 2228358]
}

fn main(rt: HostRuntime) {
    let mut input = [0u8; 65537];
    given::answer(&mut rt.stdin(), &rt.stderr(), &mut input, |job| {
        let mut room = longest_room();
        let end = report_write::write_report(job, &mut room);
        rt.stdout().write_all(&room[..end])
    });
}
