// The number that bits of a lent slice are, put together from the bytes that they touch: each is loaded once, and no other. Nothing is
// looked at bit by bit.
#![tactic(auto)]

ghost use Rattle.std.specs.Prelude.{◌≡◌, ◌+◌, ◌*◌, ◌≤◌, length, take, drop};
ghost use Rattle.tree.specs.Bits.{bits_of, bit, value};
ghost use Rattle.window.specs.Bytes.{bytes_number};

// The number of a byte.
fn one(s: &[u8], i: usize) -> u32
    requires { i + 1 ≤ length s.now }
    ensures { result ≡ bytes_number s.now i 1 }
{
    s[i] as u32
}

// The number of two bytes, of four, and of at most four. Two and four are one load where the machine has it. (std's `from_be_bytes` would be
// given an array of the same bytes, one by one.)
fn two(s: &[u8], i: usize) -> u32
    requires { i + 2 ≤ length s.now }
    ensures { result ≡ bytes_number s.now i 2 }
{
    one(s, i) * 256 + one(s, i + 1)
}

fn four(s: &[u8], i: usize) -> u32
    requires { i + 4 ≤ length s.now }
    ensures { result ≡ bytes_number s.now i 4 }
{
    two(s, i) * 65536 + two(s, i + 2)
}

fn few(s: &[u8], i: usize, k: usize) -> u32
    requires { (i + k ≤ length s.now) × (k ≤ 4) }
    ensures { result ≡ bytes_number s.now i k }
{
    match k {
        0 => 0,
        1 => one(s, i),
        2 => two(s, i),
        3 => two(s, i) * 256 + one(s, i + 2),
        _ => four(s, i),
    }
}

// The number of at most four bytes, and of the next one if `more` says so: a number of bytes, 0 or 1, and no choice between two steps.
fn few_and_next(s: &[u8], i: usize, k: usize, more: bool) -> u64
    requires { (i + (k + bit more) ≤ length s.now) × (k ≤ 4) }
    ensures { result ≡ bytes_number s.now i (k + bit more) }
{
    let v = few(s, i, k) as u64;
    if more {
        v * 256 + one(s, i + k) as u64
    } else {
        v
    }
}

// The same of at most eight bytes in all: the last four are loaded as one, whether there is one more before them or not.
fn bytes_and_next(s: &[u8], i: usize, k: usize, more: bool) -> u64
    requires { (i + (k + bit more) ≤ length s.now) × (k + bit more ≤ 8) }
    ensures { result ≡ bytes_number s.now i (k + bit more) }
{
    if k <= 4 {
        return few_and_next(s, i, k, more);
    }
    few_and_next(s, i, k - 4, more) * 4294967296 + four(s, i + (k - 4) + more as usize) as u64
}

// The number that n bits are, which lie in the slice from position at on: n / 8 bytes, rounded up, or one more, by where they begin. What is
// behind them in the last byte is divided away, and what is before them in the first is left off.
pub fn word(s: &[u8], at: usize, n: usize) -> u64
    requires { (at + n ≤ 8 * length s.now) × (n ≤ 56) }
    ensures { result ≡ value (take n (drop at (bits_of s.now))) }
{
    let all = at % 8 + n;
    let k = (n + 7) / 8;
    let behind = (8 - all % 8) % 8;
    (bytes_and_next(s, at / 8, k, 8 * k < all) >> behind) % (1u64 << n)
}
