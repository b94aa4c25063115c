// The counts of a record, one for each of types 1, 3, 4 and 5.
ghost use Rattle.std.specs.Prelude.{◌≡◌, true, ◌+◌, ◌*◌, ◌≤◌, ◌<◌, length};
ghost use Rattle.words.specs.Tests.{among};
ghost use Rattle.record.specs.Layout.{record_words, counted_types, order_of, count_at, count_words, last_of};
ghost use Rattle.record.specs.Counts.{added_of, counted_of, count_record, added_to};

// The order of type 4 among the types that are counted: 1, 3, 4, 5.
pub const CONTEXT_ORDER: usize = 2;

// Where last plus one stands among the three words of a count.
pub const LAST: usize = 2;

// Where the count of the type of this order begins in a record: after the identifier, the held indicator and three words for each type before it.
pub fn count_at(order: usize) -> usize
    requires { order < 4 }
    ensures { (result ≡ count_at order) × (result ≤ 11) }
{
    2 + 3 * order
}

// The order of a type that is counted. It is an eighth of the type's square, rounded down, which takes no branch: 1, 3, 4, 5 give 0, 1, 2, 3.
pub fn type_order(kind: u32) -> usize
    requires { among kind counted_types ≡ true }
    ensures { (result ≡ order_of kind) × (result < 4) }
{
    (kind * kind / 8) as usize
}

// The missing that a packet of this count adds: nothing for the first, else (count - last - 1) modulo 16. Last is given as last plus one, or 0.
fn added(last: u32, count: u32) -> u32
    requires { (last ≤ 16) × (count < 16) }
    ensures { result ≡ added_of last count }
{
    if last == 0 {
        return 0;
    }
    std::num::wrapping_sub_u32(count, last) % 16
}

// Counts a packet in the three words of its type: seen, missing, last plus one. Gives the missing that it adds.
fn count_words(ws: &mut [u32], count: u32) -> u32
    requires { (length ws.old ≡ 3) × (count < 16) × (last_of ws.old ≤ 16) }
    ensures { (result ≡ added_of (last_of ws.old) count) × (ws.new ≡ counted_of count ws.old) }
{
    let seen = ws[0];
    let missing = ws[1];
    let last = ws[2];
    let more = added(last, count);
    ws[0] = std::num::wrapping_add_u32(seen, 1);
    ws[1] = std::num::wrapping_add_u32(missing, more);
    ws[2] = count + 1;
    more
}

// Counts a packet of the type of this order in a record. Gives the missing that it adds.
pub fn count(rec: &mut [u32], order: usize, count: u32) -> u32
    requires { (length rec.old ≡ record_words) × (order < 4) × (count < 16) × (last_of (count_words order rec.old) ≤ 16) }
    ensures { (result ≡ added_to order count rec.old) × (rec.new ≡ count_record order count rec.old) }
{
    let at = count_at(order);
    let end = at + 3;
    count_words(&mut rec[at..end], count)
}
