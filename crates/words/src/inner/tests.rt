// Tests: what holds where one does, and where two do.
ghost use Rattle.std.specs.Prelude.{◌≡◌, ◌≤◌};
ghost use Rattle.words.specs.Tests.{when, both};

// The number where the test holds, and else 0.
pub fn when_so(test: bool, n: usize) -> usize
    ensures { (result ≡ when test n) × (result ≤ n) }
{
    if test { n } else { 0 }
}

// Whether both tests hold.
pub fn both_of(a: bool, b: bool) -> bool
    ensures { result ≡ both a b }
{
    if a { b } else { false }
}
