// Emulation prevention in a NAL unit (H.265, 7.3.1.1): where two zero bytes would be followed by 00 to 03, a byte 03 is put between.
#![tactic(auto)]

ghost use Rattle.std.specs.Prelude.{◌≡◌, ◌++◌, ◌≤◌, ◌<◌, ◌^◌, length, drop, cond};
ghost use Rattle.emulation.specs.Emulation.{forbidden, begins_forbidden, removed, escaped, zeros_behind, needs_emulation};

// The byte that is put between.
const THREE_BYTE: u8 = 3;

// Whether bytes that may not stand in a unit begin here.
fn begins_forbidden(s: &[u8]) -> bool
    ensures { result ≡ begins_forbidden s.now }
{
    match *s {
        [0, 0, THREE_BYTE, fourth, ..] => THREE_BYTE < fourth,
        [0, 0, third, ..] => third < THREE_BYTE,
        _ => false,
    }
}

// Whether bytes that may not stand in a unit stand anywhere.
pub fn has_forbidden(s: &[u8]) -> bool
    ensures { result ≡ forbidden s.now }
{
    (0..s.len()).any(|i| begins_forbidden(&s[i..]))
}

// How many zero bytes stand in a row, behind one more byte.
fn zeros_behind(zeros: usize, b: u8) -> usize
    requires { zeros < 2 ^ 63 }
    ensures { result ≡ zeros_behind zeros b }
{
    if b == 0 { zeros + 1 } else { 0 }
}

// Copies the bytes without their emulation bytes, and answers how many they are then.
pub fn remove(s: &[u8], out: &mut [u8]) -> usize
    requires { length s.now ≤ length out.old }
    ensures result { result ≡ length (removed s.now) }
    ensures buffer { out.new ≡ removed s.now ++ drop (length (removed s.now)) out.old }
{
    let mut zeros = 0;
    let mut n = 0;
    for &b in s {
        if (zeros < 2) | (b != THREE_BYTE) {
            out[n] = b;
            n += 1;
        }
        zeros = zeros_behind(zeros, b);
    }
    n
}

// Whether an emulation byte comes before a byte, and how many zero bytes stand in a row behind them.
fn escape(zeros: usize, b: u8) -> (bool, usize)
    requires { zeros < 2 ^ 63 }
    ensures put { result.0 ≡ needs_emulation zeros b }
    ensures zeros { result.1 ≡ zeros_behind (cond (needs_emulation zeros b) 0 zeros) b }
{
    let put = (2 <= zeros) & (b <= THREE_BYTE);
    (put, zeros_behind(if put { 0 } else { zeros }, b))
}

// How many bytes they are with emulation bytes.
pub fn escaped_length(s: &[u8]) -> usize
    requires { length s.now < 2 ^ 32 }
    ensures { result ≡ length (escaped s.now) }
{
    let mut zeros = 0;
    let mut n = 0;
    for &b in s {
        let (put, behind) = escape(zeros, b);
        n += usize::from(put) + 1;
        zeros = behind;
    }
    n
}

// Copies the bytes with emulation bytes where they are needed, into a buffer that has room for them.
pub fn insert(s: &[u8], out: &mut [u8])
    requires { length (escaped s.now) ≤ length out.old }
    ensures buffer { out.new ≡ escaped s.now ++ drop (length (escaped s.now)) out.old }
{
    let mut zeros = 0;
    let mut n = 0;
    for &b in s {
        let (put, behind) = escape(zeros, b);
        if put {
            out[n] = THREE_BYTE;
            n += 1;
        }
        out[n] = b;
        n += 1;
        zeros = behind;
    }
}
