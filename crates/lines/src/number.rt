// Words and numbers, decimal and hexadecimal, written into a lent buffer. The caller sees to it that there is room for them.
ghost use mathlib.Core.{Path.◌≡◌, List.{[], ◌∷◌, ◌++◌}};
ghost use Rattle.std.specs.Prelude.{◌+◌, ◌*◌, ◌/◌, ◌%◌, ◌^◌, ◌≤◌, ◌<◌, length};
ghost use Rattle.lines.specs.Line.{decimal_in, decimal, last_two, hex_four, hex, numbered, Put};

// Each of these functions, and those of lib.rt, takes the buffer and a position, and answers the position after what it wrote.
// They are no methods of a writer that holds both, since the program `trace` is slower by it: for 200,000 steps it takes
// 85,125,905 instructions, and 75,682,124 by these.
/// One byte.
pub fn put(out: &mut [u8], at: usize, b: u8) -> usize
    requires { at < length out.old }
    ensures { Put out.old out.new at result (b ∷ []) }
{
    out[at] = b;
    at + 1
}

pub fn put_text(out: &mut [u8], at: usize, s: &[u8]) -> usize
    requires { at + length s.now ≤ length out.old }
    ensures { Put out.old out.new at result s.now }
{
    let end = at + s.len();
    out[at..end].copy_from_slice(s);
    end
}

// The last digit of n, and the last two.
fn put_last(out: &mut [u8], at: usize, n: u64) -> usize
    requires { at < length out.old }
    ensures { Put out.old out.new at result ((48 + n % 10) ∷ []) }
{
    put(out, at, 48 + (n % 10) as u8)
}

fn put_pair(out: &mut [u8], at: usize, n: u64) -> usize
    requires { at + 2 ≤ length out.old }
    ensures put { Put out.old out.new at result (last_two n) }
    ensures value { result ≡ at + 2 }
{
    let a = put_last(out, at, n / 10);
    put_last(out, a, n)
}

// The decimal digits of n: at most two, at most four, at most eight. These three and `put_digits` are not one function that
// recurs by pairs, since that is slower: a trace of 200,000 steps takes 88,945,637 instructions by it, and 75,682,124 by these.
fn put_few(out: &mut [u8], at: usize, n: u64) -> usize
    requires { at + 2 ≤ length out.old }
    ensures put { Put out.old out.new at result (decimal_in 1 n) }
    ensures upper_bound { result ≤ at + 2 }
{
    if n < 10 {
        return put_last(out, at, n);
    }
    put_pair(out, at, n)
}

fn put_some(out: &mut [u8], at: usize, n: u64) -> usize
    requires { at + 4 ≤ length out.old }
    ensures put { Put out.old out.new at result (decimal_in 3 n) }
    ensures upper_bound { result ≤ at + 4 }
{
    if n < 100 {
        return put_few(out, at, n);
    }
    let a = put_few(out, at, n / 100);
    put_pair(out, a, n)
}

fn put_eight(out: &mut [u8], at: usize, n: u64) -> usize
    requires { at + 8 ≤ length out.old }
    ensures put { Put out.old out.new at result (decimal_in 7 n) }
    ensures upper_bound { result ≤ at + 8 }
{
    if n < 10000 {
        return put_some(out, at, n);
    }
    let a = put_some(out, at, n / 10000);
    let b = put_pair(out, a, n / 100);
    put_pair(out, b, n)
}

// The decimal digits of n by groups of four, at most more groups behind the first.
fn put_digits(out: &mut [u8], at: usize, n: u64, more: usize) -> usize
    requires { at + (4 * more + 4) ≤ length out.old }
    ensures put { Put out.old out.new at result (decimal_in (4 * more + 3) n) }
    ensures upper_bound { result ≤ at + (4 * more + 4) }
{
    if more == 0 {
        return put_some(out, at, n);
    }
    if n < 10000 {
        return put_some(out, at, n);
    }
    let a = put_digits(out, at, n / 10000, more - 1);
    let b = put_pair(out, a, n / 100);
    put_pair(out, b, n)
}

pub fn put_decimal(out: &mut [u8], at: usize, n: u64) -> usize
    requires { at + 20 ≤ length out.old }
    ensures put { Put out.old out.new at result (decimal n) }
    ensures upper_bound { result ≤ at + 20 }
{
    if n < 10 {
        return put_last(out, at, n);
    }
    // The common case apart, by no recursion: with `put_digits` alone that trace takes 82,015,772 instructions.
    if n < 100000000 {
        return put_eight(out, at, n);
    }
    put_digits(out, at, n, 4)
}

// The glyphs of the last eight hexadecimal digits of w.
fn glyphs(w: u64) -> [u8; 8]
    ensures { result ≡ hex_four (w / 2 ^ 16) ++ hex_four w }
{
    // The halves change places, then the bytes of each half, then the digits of each byte.
    let a = w % 65536 * 4294967296 + w / 65536 % 65536;
    let b = (a & 0x000000ff000000ff) * 65536 + (a & 0x0000ff000000ff00) / 256;
    let d = (b & 0x000f000f000f000f) * 256 + (b & 0x00f000f000f000f0) / 16;
    // 1 for each digit from 10 on, which adding 6 carries to 16.
    let letters = ((d + 0x0606060606060606) & 0x1010101010101010) / 16;
    let lanes = d + 0x3030303030303030 + letters * 39;
    lanes.to_le_bytes()
}

pub fn put_hex(out: &mut [u8], at: usize, w: u64) -> usize
    requires { at + 16 ≤ length out.old }
    ensures put { Put out.old out.new at result (hex w) }
    ensures value { result ≡ at + 16 }
{
    let a = put_text(out, at, &glyphs(w >> 32));
    put_text(out, a, &glyphs(w))
}

// A word and a number.
pub fn put_numbered(out: &mut [u8], at: usize, word: &[u8], n: u64) -> usize
    requires { at + length word.now + 20 ≤ length out.old }
    ensures put { Put out.old out.new at result (numbered word.now n) }
    ensures upper_bound { result ≤ at + length word.now + 20 }
{
    let a = put_text(out, at, word);
    put_decimal(out, a, n)
}
