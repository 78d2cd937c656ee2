// Lines of key=value text, in ASCII, typed on a page one behind another. It knows nothing of what the text is about.
#![tactic(auto, unfolding(crate::specs::Text::ascii))]

ghost use Rattle.std.specs.Prelude.{◌≡◌, ◌++◌, ◌≤◌, length, pos};
ghost use Rattle.text.specs.Text.{digits, decimal};
ghost use Rattle.text.specs.Typing.{entry};
ghost use Rattle.text.specs.Page.{HasRoom, TypedOn};

// A lent buffer, and the place in it where what comes next is typed. What stands behind that stays as it is.
// How much room a step needs is another at each call, so that no invariant says it.
#[derive(Drop)]
pub struct Page<'a> {
    pub out: &'a mut [u8],
    pub at: usize,
}

impl Page<'_> {
    // Bytes as they are.
    pub fn put_text(&mut self, s: &[u8])
        requires { HasRoom self.old s.now }
        ensures { TypedOn self.old s.now self.new }
    {
        let end = self.at + s.len();
        self.out[self.at..end].copy_from_slice(s);
        self.at = end;
    }

    // A number in plain decimal. Not by `write!`, which is no plainer: a Formatter would stand between, and a Result where nothing can fail.
    pub fn put_decimal(&mut self, n: u64)
        requires { HasRoom self.old (decimal n) }
        ensures { TypedOn self.old (decimal n) self.new }
    {
        let end = self.at + digits_of(n);
        fill_with_digits(&mut self.out[self.at..end], n);
        self.at = end;
    }

    // One line; the key has its equals sign.
    pub fn put_line(&mut self, key: &[u8], n: u64)
        requires { HasRoom self.old (entry key.now (pos n)) }
        ensures { TypedOn self.old (entry key.now (pos n)) self.new }
    {
        self.put_text(key);
        self.put_decimal(n);
        self.put_text(b"\n");
    }

    // Two lines.
    pub fn put_two(&mut self, key: &[u8], n: u64, second_key: &[u8], second: u64)
        requires { HasRoom self.old (entry key.now (pos n) ++ entry second_key.now (pos second)) }
        ensures { TypedOn self.old (entry key.now (pos n) ++ entry second_key.now (pos second)) self.new }
    {
        self.put_line(key, n);
        self.put_line(second_key, second);
    }

    // One line whose number may be negative; the key has its equals sign.
    pub fn put_signed(&mut self, key: &[u8], n: i16)
        requires { HasRoom self.old (entry key.now n) }
        ensures { TypedOn self.old (entry key.now n) self.new }
    {
        self.put_text(key);
        if n < 0 {
            self.put_text(b"-");
        }
        self.put_line(b"", n.unsigned_abs() as u64);
    }
}

// How many digits n has.
fn digits_of(n: u64) -> usize
    ensures { (result ≡ length (decimal n)) × (result ≤ 20) }
{
    n.max(1).ilog10() as usize + 1
}

// The last digits of n, as many as there is place for.
fn fill_with_digits(place: &mut [u8], n: u64)
    ensures { place.new ≡ digits (length place.old) n }
{
    let mut rest = n;
    for i in (0..place.len()).rev() {
        place[i] = b'0' + (rest % 10) as u8;
        rest /= 10;
    }
}
