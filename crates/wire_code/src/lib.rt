// Bytes: big-endian numbers, stores into a lent buffer, runs of zeros.
#![tactic(auto)]

ghost use Rattle.std.specs.Prelude.{◌≡◌, ◌<◌, length, take, drop};
ghost use Rattle.std.proofs.lemmas.List.Edits.{sets};
ghost use Rattle.wire.specs.Numbers.{byte_at, word, number, word_at, number_at, two, four, wide, eight};
ghost use Rattle.wire.specs.Buffers.{Shown, padded, all_zero};
ghost use Rattle.wire.specs.Rules.{length_wrong, breach, zero_rules};

// The byte at an index, 0 past the end.
pub fn byte_at(s: &[u8], at: usize) -> u8
    ensures { result ≡ byte_at s.now at }
{
    s.get(at).copied().unwrap_or(0)
}

// The number in two bytes, the higher first.
pub fn word(high: u8, low: u8) -> usize
    ensures { (result ≡ word high low) × (result < 65536) }
{
    u16::from_be_bytes([high, low]) as usize
}

// The number in four bytes, the highest first.
pub fn number(a: u8, b: u8, c: u8, d: u8) -> u32
    ensures { result ≡ number a b c d }
{
    u32::from_be_bytes([a, b, c, d])
}

// The number in the two bytes at an index, of which those past the end are 0.
pub fn word_at(s: &[u8], at: usize) -> usize
    ensures { (result ≡ word_at s.now at) × (result < 65536) }
{
    let rest = rest(s, at);
    word(byte_at(rest, 0), byte_at(rest, 1))
}

// The number in the four bytes at an index, of which those past the end are 0.
pub fn number_at(part: &[u8], at: usize) -> u32
    ensures { result ≡ number_at part.now at }
{
    let rest = rest(part, at);
    number(
        byte_at(rest, 0),
        byte_at(rest, 1),
        byte_at(rest, 2),
        byte_at(rest, 3),
    )
}

pub fn two(n: u16) -> [u8; 2]
    ensures { result ≡ two n }
{
    n.to_be_bytes()
}

pub fn four(n: u32) -> [u8; 4]
    ensures { result ≡ four n }
{
    n.to_be_bytes()
}

// The number in a part's first eight bytes, of which those past the end are 0.
pub fn wide(part: &[u8]) -> u64
    ensures { result ≡ wide part.now }
{
    u64::from_be_bytes(padded(part))
}

pub fn eight(n: u64) -> [u8; 8]
    ensures { result ≡ eight n }
{
    n.to_be_bytes()
}

// Stores part's bytes in the buffer from an index on, as many as it holds.
pub fn put(buffer: &mut [u8], at: usize, part: &[u8])
    ensures { buffer.new ≡ sets buffer.old at part.now }
{
    let from = at.min(buffer.len());
    let size = part.len().min(buffer.len() - from);
    buffer[from..from + size].copy_from_slice(&part[..size]);
}

// Shows a page in a lent buffer, and tells the page's full length.
pub fn show(page: &[u8], buffer: &mut [u8]) -> usize
    ensures { Shown page.now buffer.old result buffer.new }
{
    put(buffer, 0, page);
    page.len()
}

// The first bytes of a part, as many as fit, and zeros.
pub fn padded<const N: usize>(part: &[u8]) -> [u8; N]
    ensures { result ≡ padded N part.now }
{
    let mut out = [0u8; N];
    put(&mut out, 0, part);
    out
}

pub fn all_zero(part: &[u8]) -> bool
    ensures { result ≡ all_zero part.now }
{
    // No byte ends the search: so many are looked at together.
    let mut good = true;
    for byte in part {
        good = good & (*byte == 0);
    }
    good
}

// What stands from an index on, nothing past the end.
pub fn rest(s: &[u8], at: usize) -> &[u8]
    ensures { result.now ≡ drop at s.now }
{
    &s[at.min(s.len())..]
}

// Each byte from an index on is zero.
pub fn zero_from(s: &[u8], from: usize) -> bool
    ensures { result ≡ all_zero (drop from s.now) }
{
    all_zero(rest(s, from))
}

// A part of a slice, as much of it as there is.
pub fn part(s: &[u8], at: usize, size: usize) -> &[u8]
    ensures { result.now ≡ take size (drop at s.now) }
{
    let rest = rest(s, at);
    &rest[..size.min(rest.len())]
}

// A page has fewer bytes than the least, or not as many as its bytes 2 and 3 say.
pub fn is_length_wrong(page: &[u8], least: usize) -> bool
    ensures { result ≡ length_wrong least page.now }
{
    (page.len() < least) | (word_at(page, 2) + 4 != page.len())
}
