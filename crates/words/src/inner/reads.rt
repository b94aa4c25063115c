// Words read: the one at a place, and two as one number.
ghost use Rattle.std.specs.Prelude.{◌≡◌, ◌<◌, length, get_or};
ghost use Rattle.words.specs.Word.{high_first};

// The word at a place, and 0 past the end.
pub fn word_at(ws: &[u32], i: usize) -> u32
    ensures { result ≡ get_or ws.now i 0 }
{
    if i < ws.len() { ws[i] } else { 0 }
}

// The word at a place that is inside.
pub fn word_inside(ws: &[u32], i: usize) -> u32
    requires { i < length ws.now }
    ensures { result ≡ get_or ws.now i 0 }
{
    ws[i]
}

// Two words as one number, high first.
pub fn high_first(high: u32, low: u32) -> u64
    ensures { result ≡ high_first high low }
{
    high as u64 * 0x1_0000_0000 + low as u64
}
