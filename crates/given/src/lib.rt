// What a program is given: the words of its command line, and its job on standard input; and how it says that it could not do with it. A read that fails is told
// from the end of the job. Which words there are, and which bytes come, no contract can say; what is made of them is stated.
#![tactic(auto)]

ghost use Rattle.std.specs.Prelude.{◌≡◌, length};
ghost use Rattle.std.specs.Fn.{FnOnceReturnsAt};
ghost use Rattle.given.specs.Words.{ReadBy, Spelt, SpeltItems};
ghost use Rattle.given.specs.Reads.{read_said, Within, Whole, no_job, no_page};

use rules::LONGEST_STREAM;
use std::env::FillError;
use std::io;
use std::io::Read;
use std::rt::Env;

// The number that word i of the command line gives, as it is read, or another where there is no such word. A word of more than 20 bytes is read as
// one of none.
fn word_read<E: Env, F: FnOnce(&[u8]) -> usize>(
    rt: &E,
    i: usize,
    otherwise: usize,
    read: F,
) -> usize
    requires { F.IsAlwaysCallable read }
    ensures { ReadBy (FnOnceReturnsAt F.FnOnce read) otherwise result }
{
    let mut bytes = [0u8; 20];
    match rt.arg(i, &mut bytes) {
        Ok(n) => read(&bytes[..n]),
        Err(FillError::TooLong) => read(&[]),
        Err(FillError::NotPresent) => otherwise,
    }
}

// The measure that word i of the command line gives, or another where there is no such word. A word of more than 20 bytes is no measure.
pub fn measure_word(rt: &impl Env, i: usize, otherwise: usize) -> usize
    ensures { Spelt otherwise result }
{
    word_read(rt, i, otherwise, number_word::measure_of_word)
}

// The number of items that word i of the command line gives, or another where there is no such word. A word of more than 20 bytes is none.
pub fn items_word(rt: &impl Env, i: usize, otherwise: usize) -> usize
    ensures { SpeltItems otherwise result }
{
    word_read(rt, i, otherwise, number_word::items_of_word)
}

// A place for the longest job and one byte, so that a longer one is seen to be longer. A function of its own hides the zeros, of which
// no proof can count so many.
pub fn longest_input() -> [u8; LONGEST_STREAM + 1]
    ensures { result ≡ no_job }
{
    [0u8; LONGEST_STREAM + 1]
}

// A place for the largest page, 4,800 by 6,800 dots, without a dot. A function of its own hides these zeros, too.
pub fn largest_page() -> [u8; 4080000]
    ensures blank { result ≡ no_page }
    ensures bytes { 4080000 ≡ length result }
{
    [0u8; 4080000]
}

// What the answer of a read means: so many bytes came, or none where the job is over; or that the read failed.
fn said_by(got: io::Result<usize>) -> io::Result<Option<usize>>
    ensures { result ≡ read_said got }
{
    match got {
        Ok(0) => Ok(None),
        Ok(n) => Ok(Some(n)),
        Err(why) => Err(why),
    }
}

// Reads the job to its end, or until the place for it is full: how many bytes came. A read that fails, or is interrupted, ends the reading.
pub fn read_job<R: Read>(from: &mut R, input: &mut [u8]) -> io::Result<usize>
    ensures within { Within result input.new }
    ensures whole { Whole (R.remaining from.new) result input.new }
{
    let mut done = 0;
    while done < input.len() {
        let Some(n) = said_by(from.read(&mut input[done..]))? else {
            break;
        };
        done += n;
    }
    Ok(done)
}

// A program's answer to the job that it is given, which `write` writes. On standard error it says UNREAD where the job cannot be read, and UNWRITTEN where a write
// fails; no program says more.
pub fn answer<F: FnOnce(&[u8]) -> io::Result<()>>(
    from: &mut impl Read,
    err: &impl Print,
    input: &mut [u8],
    write: F,
)
    requires { F.IsAlwaysCallable write }
    ensures { length input.new ≡ length input.old }
{
    let Ok(n) = read_job(from, input) else {
        let _ = err.write_all(b"UNREAD\n");
        return;
    };
    if write(&input[..n]).is_err() {
        let _ = err.write_all(b"UNWRITTEN\n");
    }
}
