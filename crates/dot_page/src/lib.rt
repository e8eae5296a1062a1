// A page's dots: those set on it are counted. Refuses nothing; who counts is asked for a page of at most 2^32 bytes, so that the sum fits.
#![tactic(auto)]

ghost use Rattle.std.specs.Prelude.{◌≡◌, ◌+◌, ◌≤◌, length, drop};
ghost use Rattle.std.specs.Int.Count.{ones};
ghost use Rattle.common.specs.Bits.{ones_all};
ghost use Rattle.dot_page.specs.Zeros.{FirstZero};

// The ones of a byte.
fn ones_of(b: u8) -> u8
    ensures value { result ≡ ones b }
    ensures few { result ≤ 8 }
{
    b.count_ones() as u8
}

// The dots of at most sixteen bytes: summed in a byte.
#[tactic(auto, using(crate::proofs::Bytes::ones_summed))]
fn few(bytes: &[u8]) -> u8
    requires { length bytes.now ≤ 16 }
    ensures { result ≡ ones_all bytes.now }
{
    bytes.iter().map(|b| ones_of(*b)).sum()
}

// The dots set on a page: the ones of each byte, summed by sixteens.
pub fn count(page: &[u8]) -> usize
    requires { length page.now ≤ 4294967296 }
    ensures { result ≡ ones_all page.now }
{
    let (sixteens, rest) = page.as_chunks::<16>();
    let mut sum = usize::from(few(rest));
    for bytes in sixteens {
        sum += usize::from(few(bytes));
    }
    sum
}

// The dots set on a page whose first bytes are known to be zero: those are not looked at.
pub fn count_behind(page: &[u8], zeros: usize) -> usize
    requires { (length page.now ≤ 4294967296) × FirstZero zeros page.now }
    ensures { result ≡ ones_all page.now }
{
    count(&page[zeros..])
}
