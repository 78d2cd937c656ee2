// Bits written into a lent buffer, most significant first: u(n), i(n), ue(v) and zero bits, through a pen that goes by value.
// Bytes past the pen stay as they are.
#![tactic(auto)]

ghost use Rattle.std.specs.Prelude.{◌≡◌, ◌+◌, ◌<◌, ◌^◌};
ghost use Rattle.tree.specs.Codes.{zeros_of};

// Where the next whole byte goes, and the bits that wait for it, as a number. Each step takes a pen by value and gives the next one, and is
// lent the buffer. A pen that kept the buffer would be no plain value: of a reference in a result no contract says where it points, and so
// `put_u_one` and its like, that a step has one answer, would not hold. Behind a `&mut` a pen takes more instructions.
// How much room a step needs is another number at each call, so that no type says it.
#[derive(Clone, Copy)]
pub struct Pen {
    pub at: usize,
    pub waiting: usize,
    pub bits: u32,

    // fewer than 8 bits wait, and the number is of that many
    pub ghost few: { waiting < 8 },
    pub ghost small: { bits < 2 ^ waiting },
}

impl Pen {
    ghost use Rattle.std.specs.Prelude.{true, false, [], ◌∷◌, ◌≤◌, length, replicate};
    ghost use Rattle.tree.specs.Bits.{code, odd};
    ghost use Rattle.tree.specs.Coding.{signed, holds, complement};
    ghost use Rattle.tree.specs.Codes.{ue_code};
    ghost use Rattle.pen.specs.Writing.{start_pen, RoomForBits, Wrote};

    // At the start of a buffer.
    pub fn start() -> Self
        ensures { result ≡ start_pen }
    {
        Pen {
            at: 0,
            waiting: 0,
            bits: 0,
        }
    }

    // One bit. It waits, or it is the eighth and the byte is written.
    fn put_bit(self, out: &mut [u8], b: u32) -> Self
        requires { RoomForBits out.old self 1 × (b < 2) }
        ensures { Wrote out.old self (odd b ∷ []) out.new result }
    {
        let bits = self.bits * 2 + b;
        if self.waiting < 7 {
            return Pen {
                at: self.at,
                waiting: self.waiting + 1,
                bits,
            };
        }
        out[self.at] = bits as u8;
        Pen {
            at: self.at + 1,
            waiting: 0,
            bits: 0,
        }
    }

    // u(n), for every n up to 32: the last n bits of v.
    #[tactic(auto, using(crate::proofs::Writing::wrote_none, crate::proofs::Writing::next_room), unfolding(tree::specs::Bits::code))]
    pub fn put_u(self, out: &mut [u8], n: usize, v: u32) -> Self
        requires { RoomForBits out.old self n × (n ≤ 32) }
        ensures { Wrote out.old self (code n v) out.new result }
    {
        let mut pen = self;
        for k in 0..n {
            pen = pen.put_bit(out, (v >> (n - 1 - k)) % 2);
        }
        pen
    }

    // n zero bits, for every n up to 32.
    pub fn put_zeros(self, out: &mut [u8], n: usize) -> Self
        requires { RoomForBits out.old self n × (n ≤ 32) }
        ensures { Wrote out.old self (replicate n false) out.new result }
    {
        self.put_u(out, n, 0)
    }

    // i(n), for every n from 1 to 32: of v in 32 bits, the last n.
    pub fn put_i(self, out: &mut [u8], n: usize, v: i32) -> Self
        requires { RoomForBits out.old self n × (0 < n) × (n ≤ 32) × (holds (signed n) v ≡ true) }
        ensures { Wrote out.old self (code n (complement n v)) out.new result }
    {
        self.put_u(out, n, v.cast_unsigned())
    }

    // ue(v): the zeros, and v + 1, whose first bit is the one behind them.
    #[tactic(auto, using(crate::proofs::Writing::ue_lengths))]
    pub fn put_ue(self, out: &mut [u8], v: u32) -> Self
        requires { RoomForBits out.old self (length (ue_code v)) × (v + 1 < 2 ^ 32) }
        ensures { Wrote out.old self (ue_code v) out.new result }
    {
        let k = zeros_of(v);
        self.put_zeros(out, k).put_u(out, k + 1, v + 1)
    }
}

// How many zeros the ue(v) code of v has.
#[tactic(auto, using(tree::proofs::Elements::zeros_is))]
pub fn zeros_of(v: u32) -> usize
    requires { v + 1 < 2 ^ 32 }
    ensures { result ≡ zeros_of v }
{
    (v + 1).ilog2() as usize
}
