// A row painted dot by dot, for squares and rows of any size.
#![tactic(auto)]

ghost use Rattle.std.specs.Prelude.{◌≡◌, ◌≤◌, ◌<◌};
ghost use Rattle.rules.specs.Dots.{inked_line};

use dot_lay::lay;

// A place in a row that is painted dot by dot: so many dots are still to skip before the row begins; then bit `bit` of byte
// `byte` is to be seen, and `done` dots of its square were seen before.
#[derive(Clone, Copy)]
struct Walk {
    skip: usize,
    byte: usize,
    bit: usize,
    done: usize,
}

impl Walk {
    ghost use Rattle.dot_slowly.specs.Walks.{Onward, Seen, Eighth};

    // One dot on.
    #[tactic(auto, using(crate::proofs::Walking::next_byte))]
    fn onward(self, dots: usize) -> Walk
        requires { (self.done < dots) × (self.bit < 8) × (self.byte < 18446744073709551615) }
        ensures { Onward dots self result }
    {
        if 0 < self.skip {
            Walk {
                skip: self.skip - 1,
                ..self
            }
        } else if self.done + 1 < dots {
            Walk {
                done: self.done + 1,
                ..self
            }
        } else if self.bit < 7 {
            Walk {
                bit: self.bit + 1,
                done: 0,
                ..self
            }
        } else {
            Walk {
                byte: self.byte + 1,
                bit: 0,
                done: 0,
                ..self
            }
        }
    }

    // The dot that the row sets there.
    fn seen(self, row: &[u8]) -> u8
        requires { self.bit < 8 }
        ensures { Seen row.now self result }
    {
        if 0 < self.skip {
            return 0;
        }
        (common::byte_at(row, self.byte) >> (7 - self.bit)) % 2
    }

    // The ink of eight dots, the first one highest, and where the next one is.
    fn eight(self, row: &[u8], dots: usize) -> (u8, Walk)
        requires { (self.done < dots) × (self.bit < 8) × (self.byte ≤ 9223372036854775808) }
        ensures { Eighth row.now dots self result }
    {
        let mut ink = 0;
        let mut at = self;
        for _ in 0..8_u8 {
            ink = ink % 128 * 2 + at.seen(row);
            at = at.onward(dots);
        }
        (ink, at)
    }
}

// A page row painted dot by dot: for squares and rows of any size. Eight dots at a time are laid, since all that paints goes through `lay`.
pub fn paint_slowly(part: &mut [u8], row: &[u8], dots: usize, from: usize)
    requires { 0 < dots }
    ensures { part.new ≡ inked_line row.now dots from 0 part.old }
{
    let mut at = Walk {
        skip: from,
        byte: 0,
        bit: 0,
        done: 0,
    };
    for j in 0..part.len() {
        let (ink, next) = at.eight(row, dots);
        lay(&mut part[j..], &[ink], 0);
        at = next;
    }
}
