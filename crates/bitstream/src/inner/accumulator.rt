// An accumulator of bits: fields taken from words, and words made of fields.
ghost use Rattle.std.specs.Prelude.{◌≡◌, ◌+◌, ◌^◌, ◌≤◌, ◌<◌, length};
ghost use Rattle.bitstream.specs.Carried.{stream_bits};
ghost use Rattle.bitstream.specs.inner.Accumulator.{empty_but, Takeable, Refilled, Took, FieldTakeable, Pushable, Pushed, FieldPushable, Finished};

use words::inner::low;

// The last `have` bits of acc are held; `at` is the next word to read or to write.
#[derive(Clone, Copy)]
pub struct Accumulator {
    pub acc: u64,
    pub have: usize,
    pub at: usize,
}

// The bits of a word that carry fields.
fn carried_at(c: usize, payload: &[u32], at: usize) -> u64
    requires { (0 < c) × (c ≤ 32) × (at < length payload.now) }
    ensures { (result ≡ stream_bits c payload.now at) × (result < 2 ^ c) }
{
    payload[at] as u64 >> (32 - c)
}

impl Accumulator {
    // Nothing is held yet; u bits are counted all the same.
    pub fn empty(u: usize) -> Accumulator
        ensures { result ≡ empty_but u }
    {
        Accumulator {
            acc: 0,
            have: u,
            at: 0,
        }
    }

    // With at least w bits counted: as it is where they are, and else with the bits that the next word carries put behind.
    fn refill(&mut self, c: usize, w: usize, payload: &[u32])
        requires { Takeable c w self.old payload.now }
        ensures { Refilled c w self.old payload.now self.new }
    {
        if self.have < w {
            let at = self.at;
            self.acc = (self.acc << c) + carried_at(c, payload, at);
            self.have += c;
            self.at = at + 1;
        }
    }

    // The next field, of f bits at most 32, without its last u bits. The accumulator counts u bits more than it holds, before and after, so that one shift, by
    // all that it counts after the field, cuts off those u bits too.
    pub fn take(&mut self, c: usize, f: usize, u: usize, payload: &[u32]) -> u64
        requires { Takeable c (f + u) self.old payload.now × (u < f) × (f ≤ 32) }
        ensures { Took c f u self.old payload.now result self.new }
    {
        self.refill(c, f + u, payload);
        let left = self.have - f;
        self.have = left;
        low(self.acc >> left, f - u)
    }

    // The next field, of f bits: one of more than 32 in two parts.
    pub fn take_field(&mut self, c: usize, f: usize, payload: &[u32]) -> u64
        requires { FieldTakeable c f self.old payload.now }
        ensures { Took c f 0 self.old payload.now result self.new }
    {
        if f <= 32 {
            return self.take(c, f, 0, payload);
        }
        let high = self.take(c, f - 32, 0, payload);
        let last = self.take(c, 32, 0, payload);
        high * 0x1_0000_0000 + last
    }

    // w bits more behind those that are held; where they fill a word, it is written.
    fn push(&mut self, c: usize, w: usize, v: u64, out: &mut [u32])
        requires { Pushable c w self.old v out.old }
        ensures { Pushed c w self.old v out.old out.new self.new }
    {
        let acc = (self.acc << w) + v;
        let have = self.have + w;
        self.acc = acc;
        if have < c {
            self.have = have;
            return;
        }
        let left = have - c;
        let at = self.at;
        out[at] = (((acc >> left) << (32 - c)) % 0x1_0000_0000) as u32;
        self.have = left;
        self.at = at + 1;
    }

    // One more field, of f bits: one of more than 32 in two parts.
    pub fn push_field(&mut self, c: usize, f: usize, v: u64, out: &mut [u32])
        requires { FieldPushable c f self.old v out.old }
        ensures { Pushed c f self.old v out.old out.new self.new }
    {
        if f <= 32 {
            self.push(c, f, v, out);
            return;
        }
        self.push(c, f - 32, v >> 32, out);
        self.push(c, 32, low(v, 32), out);
    }

    // The last bits, at the left of a word.
    pub fn finish(self, out: &mut [u32])
        requires { (self.have < 32) × (0 < self.have → self.at < length out.old) }
        ensures { Finished self out.old out.new }
    {
        let at = self.at;
        let have = self.have;
        if 0 < have {
            out[at] = ((self.acc << (32 - have)) % 0x1_0000_0000) as u32;
        }
    }
}
