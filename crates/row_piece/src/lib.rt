// Bytes put into the one lent row: copies and runs. What lies beyond the row is dropped. They are put in exactly; or over, where what stands behind
// them in the row is still to be written: then by blocks of sixteen, which a processor stores at once, and which may run over their end.
#![tactic(auto)]

ghost use Rattle.std.specs.Prelude.{◌≡◌, ◌+◌, ◌-◌, ◌≤◌, ◌<◌, length, take, drop, replicate};
ghost use Rattle.std.proofs.lemmas.List.Edits.{sets};
ghost use Rattle.row_piece.specs.Pieces.{Over};

// The bytes that are stored, or taken, at once.
const BLOCK: usize = 16;

// n bytes from place i of the payload, as far as they are there, go into the row from a place on, as far as it reaches.
// By `copy_from_slice` rows of literals take 1.2 times as long: it looks whether the two overlap, and calls a function.
pub fn copy(row: &mut [u8], at: usize, s: &[u8], i: usize, n: usize)
    ensures { row.new ≡ sets row.old at (take n (drop i s.now)) }
{
    let m = n
        .min(row.len().saturating_sub(at))
        .min(s.len().saturating_sub(i));
    for k in 0..m {
        row[at + k] = s[i + k];
    }
}

// A byte goes into n places of the row from a place on, as far as it reaches. By the slice's own `fill`, which stores the last byte apart, long runs
// take 1.4 times as long.
fn fill(row: &mut [u8], at: usize, n: usize, b: u8)
    ensures { row.new ≡ sets row.old at (replicate n b) }
{
    let m = n.min(row.len().saturating_sub(at));
    for k in 0..m {
        row[at + k] = b;
    }
}

// Zeros in the row from a place on.
pub fn clear_from(row: &mut [u8], at: usize)
    ensures { row.new ≡ sets row.old at (replicate (length row.old) 0) }
{
    let from = at.min(row.len());
    row[from..].fill(0);
}

// N bytes from place i of the payload go into the row from a place on: by way of an array, and so at once. Right from the payload, the processor's code
// would look first whether the two overlap, and twice the time would go by.
fn copy_block<const N: usize>(row: &mut [u8], at: usize, s: &[u8], i: usize)
    requires { (at + N ≤ length row.old) × (i + N ≤ length s.now) }
    ensures { row.new ≡ sets row.old at (take N (drop i s.now)) }
{
    let mut block = [0; N];
    block.copy_from_slice(&s[i..i + N]);
    row[at..at + N].copy_from_slice(&block);
}

// n bytes, N to twice as many: the first N and the last N, which may overlap.
fn copy_ends<const N: usize>(row: &mut [u8], at: usize, s: &[u8], i: usize, n: usize)
    requires { (N ≤ n) × (n ≤ N + N) × (at + n ≤ length row.old) × (i + n ≤ length s.now) }
    ensures { row.new ≡ sets row.old at (take n (drop i s.now)) }
{
    copy_block::<N>(row, at, s, i);
    copy_block::<N>(row, at + n - N, s, i + n - N);
}

// n bytes, one to eight, as `copy` puts them: made for few.
pub fn replace(row: &mut [u8], at: usize, s: &[u8], i: usize, n: usize)
    requires { (1 ≤ n) × (n ≤ 8) × (at < 4000) × (i ≤ length s.now + 1) }
    ensures { row.new ≡ sets row.old at (take n (drop i s.now)) }
{
    if row.len() < at + n || s.len() < i + n {
        copy(row, at, s, i, n);
        return;
    }
    match n {
        1 => copy_block::<1>(row, at, s, i),
        2 | 3 => copy_ends::<2>(row, at, s, i, n),
        _ => copy_ends::<4>(row, at, s, i, n),
    }
}

// A byte goes into n places of the row from a place on: the first sixteen at once, also where they are fewer.
pub fn fill_over(row: &mut [u8], at: usize, n: usize, b: u8)
    requires { at < 4000 }
    ensures { Over row.old row.new at (replicate n b) }
{
    if row.len() < at + BLOCK {
        fill(row, at, n, b);
        return;
    }
    fill(row, at, BLOCK, b);
    if BLOCK < n {
        fill(row, at + BLOCK, n - BLOCK, b);
    }
}

// n bytes from place i of the payload go into the row from a place on, sixteen at once. There are sixteen more of both.
#[tactic(auto, using(crate::proofs::Texts::blocks_none, crate::proofs::Texts::blocks_last))]
fn copy_blocks(row: &mut [u8], at: usize, s: &[u8], i: usize, n: usize)
    requires { (at + n + 16 ≤ length row.old) × (i + n + 16 ≤ length s.now) }
    ensures { Over row.old row.new at (take n (drop i s.now)) }
{
    for k in (0..n).step_by(BLOCK) {
        copy_block::<BLOCK>(row, at + k, s, i + k);
    }
}

// The same, by blocks where they do not run over the end of the row or of the payload.
pub fn copy_over(row: &mut [u8], at: usize, s: &[u8], i: usize, n: usize)
    requires { (at < 4000) × (n ≤ 256) × (i ≤ length s.now + 1) }
    ensures { Over row.old row.new at (take n (drop i s.now)) }
{
    if row.len() < at + n + BLOCK || s.len() < i + n + BLOCK {
        copy(row, at, s, i, n);
    } else {
        copy_blocks(row, at, s, i, n);
    }
}
