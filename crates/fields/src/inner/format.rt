// The first word of field 15, the payload format: its parts, and its rule. Each part has a function of its own, with the name that document 01 gives it: one for all,
// lent the places of two bits, would say no more than a quotient and a remainder do.
ghost use Rattle.std.specs.Prelude.{◌≡◌};
ghost use Rattle.fields.specs.Format.{real_complex, item_code, event_size, channel_size, packing_size, item_size, code_known, code_fits, format_ok};

// 0 where the items are real.
pub fn real_complex(first: u32) -> u32
    ensures { result ≡ real_complex first }
{
    first / 0x2000_0000 % 4
}

// The item code.
fn item_code(first: u32) -> u32
    ensures { result ≡ item_code first }
{
    first / 0x100_0000 % 32
}

// The size of the event tags, in bits.
pub fn event_size(first: u32) -> u32
    ensures { result ≡ event_size first }
{
    first / 0x10_0000 % 8
}

// The size of the channel tag.
pub fn channel_size(first: u32) -> u32
    ensures { result ≡ channel_size first }
{
    first / 0x1_0000 % 16
}

// The size of a packing field.
pub fn packing_size(first: u32) -> u32
    ensures { result ≡ packing_size first }
{
    first / 64 % 64 + 1
}

// The size of an item.
pub fn item_size(first: u32) -> u32
    ensures { result ≡ item_size first }
{
    first % 64 + 1
}

// Whether an item code is one of document 01's.
#[tactic(auto, unfolding(crate::specs::Format::code_known))]
fn code_known(code: u32) -> bool
    ensures { result ≡ code_known code }
{
    matches!(code, 0..=6 | 14..=22)
}

// Whether an item code that fixes its items' size has items of that size.
#[tactic(auto, unfolding(crate::specs::Format::code_fits))]
fn code_fits(code: u32, item: u32) -> bool
    ensures { result ≡ code_fits code item }
{
    match code {
        14 => item == 32,
        15 => item == 64,
        _ => true,
    }
}

// Whether the first word of a format obeys the rule of field 15.
#[tactic(auto, unfolding(crate::specs::Format::format_ok))]
pub fn format_ok(first: u32) -> bool
    ensures { result ≡ format_ok first }
{
    let code = item_code(first);
    let item = item_size(first);
    let fits = item + event_size(first) + channel_size(first) <= packing_size(first);
    first / 0x1000 % 16 == 0
        && real_complex(first) != 3
        && code_known(code)
        && code_fits(code, item)
        && fits
}
