// Powers of two, and the low bits of a number.
ghost use Rattle.std.specs.Prelude.{◌≡◌, ◌+◌, ◌%◌, ◌^◌, ◌≤◌, ◌<◌};

// A power of two.
pub fn power(n: usize) -> u64
    requires { n < 64 }
    ensures { (result ≡ 2 ^ n) × (0 < result) × (result ≤ 2 ^ 63) }
{
    1 << n
}

// The largest number of n bits.
pub fn ones(n: usize) -> u64
    requires { (1 ≤ n) × (n ≤ 64) }
    ensures { result + 1 ≡ 2 ^ n }
{
    let top = power(n - 1);
    top - 1 + top
}

// The n low bits.
pub fn low(v: u64, n: usize) -> u64
    requires { n < 64 }
    ensures { (result ≡ v % 2 ^ n) × (result < 2 ^ n) }
{
    v % power(n)
}
