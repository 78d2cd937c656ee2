// Bits of a lent slice, most significant first: u(n), ue(v) and zero bits, read at a bit position, and the sign of i(n). Any position that 32
// bits hold (31 for zero bits, with all of them) gets an answer, and nothing here knows what the bits mean.
// (The slice and the position go apart through all that reads: each step has its own position, and a cursor would be made anew for each.)
#![tactic(auto)]

ghost use Rattle.std.specs.Prelude.{◌≡◌, ℕ, ◌+◌, ◌-◌, ◌*◌, ◌/◌, ◌<◌, ◌≤◌, ◌^◌, length, drop, take};
ghost use Rattle.refusals.specs.declared.Refusal.TheVariants.{NotZero};
ghost use Rattle.tree.specs.Bits.{bits_of, value};
ghost use Rattle.tree.specs.Reading.{u, ue, signed_of};
ghost use Rattle.tree.specs.Syntax.{read, zero_bits};
ghost use Rattle.bits.specs.Answer.{nameless, number_of, span_of, unread, zeros_that_fit, Leads, Begun};

use refusals::Refusal;

// H.265: a ue(v) code has at most 31 zeros, so its number is at most 2^32 - 2.
pub const MOST_ZEROS: usize = 31;

// A number that was read and how many bits it took.
#[derive(Clone, Copy, Debug, PartialEq, Eq, Hash)]
pub struct Number {
    pub value: u32,
    pub width: usize,
}

// Why there is none: which refusal, and where its element begins.
#[derive(Clone, Copy, Debug, PartialEq, Eq, Hash)]
pub struct Unread {
    pub refusal: Refusal,
    pub offset: usize,
}

impl Unread {
    ghost use Rattle.bits.specs.Answer.{unread};

    fn at(refusal: Refusal, offset: usize) -> Self
        ensures { result ≡ unread refusal offset }
    {
        Unread { refusal, offset }
    }
}

// The number that n bits are, which lie in the slice from position at on.
pub fn field(s: &[u8], at: usize, n: usize) -> u32
    requires { (at + n ≤ 8 * length s.now) × (n ≤ 32) }
    ensures { result ≡ value (take n (drop at (bits_of s.now))) }
{
    window::word(s, at, n) as u32
}

// u(n), for every n up to 32.
pub fn read_u(s: &[u8], at: usize, n: usize) -> Result<Number, Unread>
    requires { (at < 2 ^ 32) × (n ≤ 32) }
    ensures { result ≡ number_of (u nameless n at (drop at (bits_of s.now))) }
{
    if n == 0 {
        return Ok(Number { value: 0, width: 0 });
    }
    if s.len() < at / 8 + (at % 8 + n + 7) / 8 {
        return Err(Unread::at(Refusal::PastEnd, at));
    }
    Ok(Number {
        value: field(s, at, n),
        width: n,
    })
}

// The signed number that v stands for in n bits. (std casts whole words; n is any width.)
pub fn to_signed(v: u32, n: usize) -> i32
    requires { (0 < n) × (n ≤ 32) × (v < 2 ^ n) }
    ensures { result ≡ signed_of n v }
{
    let half: u64 = 1 << (n - 1);
    let whole: u64 = 1 << n;
    (((v as u64 + half) % whole) as i64 - half as i64) as i32
}

// The bits of a ue(v) code up to the end of the byte that holds its first one: the number that they are, how many they are, and the byte
// behind them.
#[derive(Clone, Copy)]
struct Lead {
    value: u64,
    width: usize,
    next: usize,
}

// Where the bits are all zeros so far, the next byte is all that counts, and no byte is loaded twice. (The loop goes on by what it reads, and
// answers how far it got: a `for` over the bytes would break off at both tests and count beside it.)
fn read_lead(s: &[u8], at: usize, most: usize) -> Result<Lead, Unread>
    requires { (at < 2 ^ 32) × (most ≤ zeros_that_fit) }
    ensures { Leads s.now at most result }
{
    let mut i = at / 8;
    if s.len() <= i {
        return Err(Unread::at(Refusal::PastEnd, at));
    }
    let mut have = 8 - at % 8;
    let mut v = s[i] as u64 % (1u64 << have);
    while v == 0 {
        if most < have {
            return Err(Unread::at(Refusal::TooManyZeros, at));
        }
        i += 1;
        if s.len() <= i {
            return Err(Unread::at(Refusal::PastEnd, at));
        }
        v = s[i] as u64;
        have += 8;
    }
    Ok(Lead {
        value: v,
        width: have,
        next: i + 1,
    })
}

// How many of `have` bits, which are the number v, stand before their first one.
fn zeros_before(v: u64, have: usize) -> usize
    requires { (0 < v) × (v < 2 ^ have) }
    ensures { (result < have) × (v / 2 ^ (have - (result + 1)) ≡ 1) }
{
    have - (64 - u64::leading_zeros(v) as usize)
}

// A ue(v) code of so many zeros, whose first bits these are. All of its bits are a number too, which is one more than the code's. The
// slice's length is looked at once, and only where another byte is loaded.
fn read_code(s: &[u8], at: usize, lead: Lead, zeros: usize) -> Result<Number, Unread>
    requires { Begun s.now at lead zeros }
    ensures { (most : ℕ) → zeros ≤ most → result ≡ number_of (ue nameless most at (drop at (bits_of s.now))) }
{
    let width = 2 * zeros + 1;
    if width <= lead.width {
        return Ok(Number {
            value: ((lead.value >> (lead.width - width)) - 1) as u32,
            width,
        });
    }
    let missing = (width - lead.width + 7) / 8;
    let Some(more) = s.get(lead.next..lead.next + missing) else {
        return Err(Unread::at(Refusal::PastEnd, at));
    };
    let mut v = lead.value;
    for byte in more {
        v = v * 256 + *byte as u64;
    }
    let behind = lead.width + 8 * missing - width;
    Ok(Number {
        value: ((v >> behind) - 1) as u32,
        width,
    })
}

// ue(v) with at most `most` zeros, for every such limit whose numbers fit: up to 31.
pub fn read_ue(s: &[u8], at: usize, most: usize) -> Result<Number, Unread>
    requires { (at < 2 ^ 32) × (most ≤ zeros_that_fit) }
    ensures { result ≡ number_of (ue nameless most at (drop at (bits_of s.now))) }
{
    let lead = read_lead(s, at, most)?;
    let zeros = zeros_before(lead.value, lead.width);
    let too_many = most < zeros;
    if too_many {
        return Err(Unread::at(Refusal::TooManyZeros, at));
    }
    read_code(s, at, lead, zeros)
}

// The first one of bits from a position on, which are not all zeros and stand as the most significant of a byte v: it decides where zeros
// are asked for.
fn refuse_one(at: usize, v: u32) -> Unread
    requires { (at < 2 ^ 31) × (0 < v) × (v < 2 ^ 8) }
    ensures { (k : ℕ) × (k < 8) × (v / 2 ^ (8 - (k + 1)) ≡ 1) × (result ≡ unread NotZero (at + k)) }
{
    Unread::at(Refusal::NotZero, at + zeros_before(v as u64, 8))
}

// n zero bits, of which the first that is a one or that is missing decides, at its own offset. What is left of a byte is looked at in one, its
// first bit as the most significant of eight. (The loop goes on by the bits that are left, of which a byte takes 1 to 8, and tells the place where it
// breaks off: a `for` over the bytes would count both beside it.)
pub fn read_zeros(s: &[u8], at: usize, n: usize) -> Result<Number, Unread>
    requires { at + n < 2 ^ 31 }
    ensures { result ≡ span_of (read (zero_bits nameless n) at (drop at (bits_of s.now))) }
{
    if n == 0 {
        return Ok(Number { value: 0, width: 0 });
    }
    let mut i = at / 8;
    if s.len() <= i {
        return Err(Unread::at(Refusal::PastEnd, at));
    }
    let mut have = 8 - at % 8;
    let mut v = ((s[i] as u32) << (at % 8)) % 256;
    let mut left = n;
    while have < left {
        if v != 0 {
            return Err(refuse_one(at + (n - left), v));
        }
        i += 1;
        if s.len() <= i {
            return Err(Unread::at(Refusal::PastEnd, 8 * i));
        }
        v = s[i] as u32;
        left -= have;
        have = 8;
    }
    if v >> (8 - left) != 0 {
        return Err(refuse_one(at + (n - left), v));
    }
    Ok(Number { value: 0, width: n })
}
