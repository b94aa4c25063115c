// Where the fields of a body stand.
ghost use Rattle.std.specs.Prelude.{◌≡◌, ◌<◌};
ghost use Rattle.fields.specs.Layout.{inside_of, found_of};
ghost use Rattle.fields.specs.Answers.{found_paper};

// Where a field stands: its place from its body's start, and its words.
#[derive(Clone, Copy)]
pub struct Found {
    pub at: usize,
    pub words: usize,
}

// The field of a bit that stands at a place of a body, where it lies wholly inside.
fn inside(bit: u32, body: &[u32], at: usize) -> Option<Found>
    requires { bit < 31 }
    ensures { found_paper result ≡ inside_of bit at body.now }
{
    if body.len() < at {
        return None;
    }
    let words = crate::inner::words_of(bit, &body[at..]);
    if body.len() - at < words {
        return None;
    }
    Some(Found { at, words })
}

// Where the field of a bit stands in a type 4 body: after the indicator and the fields of the bits above it. It is absent for a bit that is
// not 30 to 8, for one that the indicator does not carry, and where the field does not lie wholly inside the body.
pub fn find(body: &[u32], bit: u32) -> Option<Found>
    ensures { found_paper result ≡ found_of bit body.now }
{
    if 30 < bit {
        return None;
    }
    if bit < 8 {
        return None;
    }
    let indicator = words::inner::word_at(body, 0);
    if (indicator >> bit) % 2 != 1 {
        return None;
    }
    let above = ((indicator >> (bit + 1)) << (bit + 1)) % 0x8000_0000;
    inside(bit, body, crate::inner::behind(above, body))
}
