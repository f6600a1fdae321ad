// Numbers in decimal, written and read; lines made by value.
#![tactic(auto)]

ghost use Rattle.std.specs.Prelude.{◌≡◌, ◌+◌, ◌*◌, ◌-◌, ◌≤◌, ◌<◌, length};
ghost use Rattle.std.proofs.lemmas.List.Edits.{sets};
ghost use Rattle.text.specs.Decimal.{zero_digit, digit, decimal, is_digit, read_most, at_most, number_told};
ghost use Rattle.text_code.specs.Telling.{and_text, text_of};

use text::{DIGITS_MOST, LINES_MOST, READ_MOST, ZERO_DIGIT};

// A few lines by value, their first bytes; zeros after them. There is no heap, so their length stands beside them.
#[derive(Clone, Copy)]
pub struct Lines {
    pub bytes: [u8; LINES_MOST],
    pub length: usize,
}

// The character of a number below 10.
fn digit(d: u64) -> u8
    requires { d < 10 }
    ensures { result ≡ digit d }
{
    ZERO_DIGIT + d as u8
}

// Puts a number's digits in the buffer from an index on, as many as it holds, and tells how many there are.
pub fn put_decimal(buffer: &mut [u8], at: usize, n: u64) -> usize
    ensures { (result ≡ length (decimal n)) × (buffer.new ≡ sets buffer.old at (decimal n)) }
{
    // From the last digit to the first: how many there are shows at the first alone.
    let mut text = [0u8; DIGITS_MOST];
    let mut from = DIGITS_MOST;
    let mut rest = n;
    while 10 <= rest {
        from -= 1;
        text[from] = digit(rest % 10);
        rest /= 10;
    }
    from -= 1;
    text[from] = digit(rest);
    wire_code::put(buffer, at, &text[from..]);
    DIGITS_MOST - from
}

fn is_digit(c: u8) -> bool
    ensures { result ≡ is_digit c }
{
    (ZERO_DIGIT <= c) & (c <= ZERO_DIGIT + 9)
}

// A number with one more digit, or the most.
fn read_on(n: u64, c: u8) -> u64
    requires { n ≤ read_most }
    ensures { result ≡ at_most read_most (10 * n + (c - zero_digit)) }
{
    (10 * n + c.saturating_sub(ZERO_DIGIT) as u64).min(READ_MOST)
}

// What a text reads as: a number, where it is digits alone.
pub fn read_decimal(text: &[u8]) -> Option<u64>
    ensures { result ≡ number_told text.now }
{
    if text.is_empty() {
        return None;
    }
    let mut value = 0;
    for c in text {
        if !is_digit(*c) {
            return None;
        }
        value = read_on(value, *c);
    }
    Some(value)
}

impl Lines {
    pub const NONE: Lines = Lines {
        bytes: [0; LINES_MOST],
        length: 0,
    };

    // So many bytes more, or the most.
    fn grow(&mut self, more: usize)
        ensures { self.new ≡ record self.old { length = at_most (length self.old.bytes) (self.old.length + more) } }
    {
        self.length = self.length.saturating_add(more).min(LINES_MOST);
    }

    // Puts words after them, as many of their bytes as there is room for.
    pub fn put_words(&mut self, words: &[u8])
        ensures { self.new ≡ and_text self.old words.now }
    {
        wire_code::put(&mut self.bytes, self.length, words);
        self.grow(words.len());
    }

    // Puts a number after them, of at most 20 digits.
    pub fn put_number(&mut self, n: u64)
        ensures { (self.new ≡ and_text self.old (decimal n)) × (length (decimal n) ≤ 20) }
    {
        let digits = put_decimal(&mut self.bytes, self.length, n);
        self.grow(digits);
    }

    // Their text.
    pub fn text(&self) -> &[u8]
        ensures { result.now ≡ text_of self.now }
    {
        &self.bytes[..self.length.min(LINES_MOST)]
    }
}
