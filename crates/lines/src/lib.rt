// Bytes, words and decimal numbers, written into a lent buffer one after another: a pen stands at the next free byte, and each of
// its functions leaves it behind what was written. That there is room is the caller's to show. Every function here is proved,
// and the crate assumes nothing.
#![tactic(auto)]

ghost use Rattle.std.specs.Prelude.{◌≡◌, [], ◌∷◌, ◌+◌, ◌≤◌, ◌<◌, length};
ghost use Rattle.lines.specs.Decimal.{decimal, digit_byte, pair};
ghost use Rattle.lines.specs.Puts.{Puts};
ghost use Rattle.lines.specs.Written.{written};

// A lent buffer, and the place of its next free byte. The functions are `inline`: a pen that is lent to a call lies in memory, and
// its place would go there and back for each byte.
#[derive(Drop)]
pub struct Pen<'a> {
    pub buf: &'a mut [u8],
    pub at: usize,
}

impl<'a> Pen<'a> {
    // One byte.
    #[inline]
    pub fn put_byte(&mut self, b: u8)
        requires { self.old.at < length self.old.buf.now }
        ensures { Puts self.old (b ∷ []) self.new }
    {
        self.buf[self.at] = b;
        self.at += 1;
    }

    // Several bytes, in their order.
    #[inline]
    pub fn put_bytes(&mut self, bytes: &[u8])
        requires { self.old.at + length bytes.now ≤ length self.old.buf.now }
        ensures { Puts self.old bytes.now self.new }
    {
        let end = self.at + bytes.len();
        self.buf[self.at..end].copy_from_slice(bytes);
        self.at = end;
    }

    // A number, in decimal, without leading zeros. Most numbers have one digit; those are written here and need no call of a
    // recursive function.
    #[inline]
    pub fn put_number(&mut self, n: u32)
        requires { self.old.at + length (decimal n) ≤ length self.old.buf.now }
        ensures { Puts self.old (decimal n) self.new }
    {
        if n < 10 {
            return self.put_byte(digit(n));
        }
        self.at = put_digits(&mut *self.buf, self.at, n);
    }

    // Two digits, of which the first may be 0.
    #[inline]
    fn put_pair(&mut self, x: u32)
        requires { (x < 100) × (self.old.at + 2 ≤ length self.old.buf.now) }
        ensures { Puts self.old (pair x) self.new }
    {
        self.put_byte(digit(x / 10));
        self.put_byte(digit(x % 10));
    }

    // A number of three digits: the first, then the two behind it.
    #[inline]
    fn put_three(&mut self, x: u32)
        requires { (100 ≤ x) × (x < 1000) × (self.old.at + length (decimal x) ≤ length self.old.buf.now) }
        ensures { Puts self.old (decimal x) self.new }
    {
        self.put_byte(digit(x / 100));
        self.put_pair(x % 100);
    }
}

// A number of two digits or more: the digits before the last two, then those. Up to three digits need no call of its own.
// By recursion and not by a loop: the front comes first, and two digits a step take half as many divisions as one. It takes the
// buffer and the place and no pen, since it is the one call that stays: so pens stay in registers.
fn put_digits(buf: &mut [u8], at: usize, x: u32) -> usize
    requires { (10 ≤ x) × (at + length (decimal x) ≤ length buf.old) }
    ensures { (result ≡ at + length (decimal x)) × (buf.new ≡ written buf.old at (decimal x)) }
{
    if 1000 <= x {
        let front = put_digits(buf, at, x / 100);
        let mut pen = Pen { buf, at: front };
        pen.put_pair(x % 100);
        return pen.at;
    }
    let mut pen = Pen { buf, at };
    if x < 100 {
        pen.put_pair(x);
        return pen.at;
    }
    pen.put_three(x);
    pen.at
}

// The byte of a digit.
fn digit(d: u32) -> u8
    requires { d < 10 }
    ensures { result ≡ digit_byte d }
{
    b'0' + d as u8
}
