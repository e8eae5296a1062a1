// A word of the command line as a page measure, and as a number of items. Nothing is refused: what is no decimal number, or too large for any page, is no
// measure that is allowed, and the call it is handed to refuses it by 10; a number of items that is too large is that of a whole job.
#![tactic(auto)]

ghost use Rattle.std.specs.Prelude.{◌≡◌, ◌≤◌};
ghost use Rattle.number_word.specs.Words.{measure_word, items_word, amount_word, one_digit};

// A number of at most `most` with one digit more; `most` stands for all that is larger.
fn one_digit(n: usize, b: u8, most: usize) -> usize
    requires { (n ≤ most) × (most ≤ 10000000) × (48 ≤ b) }
    ensures { (result ≡ one_digit most n b) × (result ≤ most) }
{
    (n * 10 + usize::from(b - b'0')).min(most)
}

// The number that a word spells in decimal, and 0 where it spells none.
fn amount_of_word(word: &[u8], most: usize) -> usize
    requires { most ≤ 10000000 }
    ensures { result ≡ amount_word most word.now }
{
    let mut n = 0;
    for b in word {
        if !b.is_ascii_digit() {
            return 0;
        }
        n = one_digit(n, *b, most);
    }
    n
}

// The page measure that a word spells; a million stands for all that is larger.
pub fn measure_of_word(word: &[u8]) -> usize
    ensures { result ≡ measure_word word.now }
{
    amount_of_word(word, 1000000)
}

// The number of items that a word spells; ten million, more than any job has, stand for all that is larger.
pub fn items_of_word(word: &[u8]) -> usize
    ensures { result ≡ items_word word.now }
{
    amount_of_word(word, 10000000)
}
