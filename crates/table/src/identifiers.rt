// Whether a list of identifiers is valid, and the choices beside it. The identifiers stand at equal distances: in a list one after the other, in a table a
// record apart.
ghost use Rattle.std.specs.Prelude.{◌≡◌, ◌+◌, ◌*◌, ◌≤◌, ◌<◌, length};
ghost use Rattle.words.specs.All.{all};
ghost use Rattle.table.specs.Identifiers.{spaced, apart, list_good, choices_good};

// Whether no identifier before number s is that of s.
fn is_apart(ws: &[u32], first: usize, step: usize, s: usize) -> bool
    requires { first + step * s < length ws.now }
    ensures { result ≡ apart (spaced first step ws.now) s }
{
    let mine = ws[first + step * s];
    for u in 0..s {
        if ws[first + step * u] == mine {
            return false;
        }
    }
    true
}

// Whether no identifier of n stands twice. None stands before the first.
fn all_apart(ws: &[u32], first: usize, step: usize, n: usize) -> bool
    requires { (1 ≤ step) × (1 ≤ n) × (first + step * n ≤ length ws.now) }
    ensures { result ≡ all n (apart (spaced first step ws.now)) }
{
    for s in 1..n {
        if !is_apart(ws, first, step, s) {
            return false;
        }
    }
    true
}

// Whether the list is 1 to 32 identifiers, none twice.
pub fn list_good(ws: &[u32], first: usize, step: usize, n: usize) -> bool
    requires { (1 ≤ step) × (first + step * n ≤ length ws.now) }
    ensures { result ≡ list_good n (spaced first step ws.now) }
{
    if n < 1 {
        return false;
    }
    if 32 < n {
        return false;
    }
    all_apart(ws, first, step, n)
}

// Whether there are as many choices as identifiers, n, and each is 0 or 1.
pub fn choices_good(choices: &[u32], n: usize) -> bool
    ensures { result ≡ choices_good n choices.now }
{
    if choices.len() != n {
        return false;
    }
    for choice in choices {
        if 1 < *choice {
            return false;
        }
    }
    true
}
