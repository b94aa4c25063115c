// The words of a field, copied into its slot. A field has 1, 2, 11 or 13 words, so that no copy needs a loop.
ghost use Rattle.std.specs.Prelude.{◌≡◌, true, [], ◌∷◌, ◌+◌, ◌≤◌, length};
ghost use Rattle.words.specs.Tests.{among};
ghost use Rattle.words.specs.Part.{part, put};

// The n words of dst from word d on, from the n words of src from word s on.
pub fn copy_field(dst: &mut [u32], d: usize, src: &[u32], s: usize, n: usize)
    requires { (d + n ≤ length dst.old) × (s + n ≤ length src.now) × (among n (1 ∷ 2 ∷ 11 ∷ 13 ∷ []) ≡ true) }
    ensures { dst.new ≡ put d n (part s n src.now) dst.old }
{
    if n == 1 {
        words::inner::copy_one(dst, d, src, s);
        return;
    }
    if n == 2 {
        words::inner::copy_two(dst, d, src, s);
        return;
    }
    words::inner::copy_eleven(dst, d, src, s);
    if n == 13 {
        words::inner::copy_two(dst, d + 11, src, s + 11);
    }
}
