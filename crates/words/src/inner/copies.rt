// Copies of words: any number of them by a loop, and a few without one.
ghost use Rattle.std.specs.Prelude.{◌≡◌, ◌+◌, ◌≤◌, length, take};
ghost use Rattle.words.specs.Part.{part, put};

// All of dst, from the front of src.
fn copy_words(dst: &mut [u32], src: &[u32])
    requires { length dst.old ≤ length src.now }
    ensures { dst.new ≡ take (length dst.old) src.now }
{
    let mut i = 0;
    while i < dst.len() {
        dst[i] = src[i];
        i += 1;
    }
}

// The n words of dst from word d on, from the n words of src from word s on.
pub fn copy_part(dst: &mut [u32], d: usize, src: &[u32], s: usize, n: usize)
    requires { (d + n ≤ length dst.old) × (s + n ≤ length src.now) }
    ensures { dst.new ≡ put d n (part s n src.now) dst.old }
{
    let de = d + n;
    let se = s + n;
    copy_words(&mut dst[d..de], &src[s..se]);
}

// One word of dst, from one of src.
pub fn copy_one(dst: &mut [u32], d: usize, src: &[u32], s: usize)
    requires { (d + 1 ≤ length dst.old) × (s + 1 ≤ length src.now) }
    ensures { dst.new ≡ put d 1 (part s 1 src.now) dst.old }
{
    dst[d] = src[s];
}

// The same of two words, four, eight and eleven, without a loop. By `copy_from_slice`, which asks first whether the words overlap, or by a loop over a constant
// number of words a context packet of a run took a quarter more.
pub fn copy_two(dst: &mut [u32], d: usize, src: &[u32], s: usize)
    requires { (d + 2 ≤ length dst.old) × (s + 2 ≤ length src.now) }
    ensures { dst.new ≡ put d 2 (part s 2 src.now) dst.old }
{
    copy_one(dst, d, src, s);
    copy_one(dst, d + 1, src, s + 1);
}

fn copy_four(dst: &mut [u32], d: usize, src: &[u32], s: usize)
    requires { (d + 4 ≤ length dst.old) × (s + 4 ≤ length src.now) }
    ensures { dst.new ≡ put d 4 (part s 4 src.now) dst.old }
{
    copy_two(dst, d, src, s);
    copy_two(dst, d + 2, src, s + 2);
}

fn copy_eight(dst: &mut [u32], d: usize, src: &[u32], s: usize)
    requires { (d + 8 ≤ length dst.old) × (s + 8 ≤ length src.now) }
    ensures { dst.new ≡ put d 8 (part s 8 src.now) dst.old }
{
    copy_four(dst, d, src, s);
    copy_four(dst, d + 4, src, s + 4);
}

pub fn copy_eleven(dst: &mut [u32], d: usize, src: &[u32], s: usize)
    requires { (d + 11 ≤ length dst.old) × (s + 11 ≤ length src.now) }
    ensures { dst.new ≡ put d 11 (part s 11 src.now) dst.old }
{
    copy_eight(dst, d, src, s);
    copy_two(dst, d + 8, src, s + 8);
    copy_one(dst, d + 10, src, s + 10);
}
