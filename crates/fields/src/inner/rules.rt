// The field rules. A rule looks at the first two words of its field at most.
ghost use Rattle.std.specs.Prelude.{◌≡◌, [], ◌∷◌, ◌^◌, ◌<◌};
ghost use Rattle.fields.specs.Rules.{state_rule, lists_rule, rule_of};
ghost use Rattle.fields.specs.inner.Limits.{ruled, limit_of, first_ok, device_second, more_ok};

// A bit for each field that has a rule: 29, 24, 21, 18, 17, 16, 15, 9 and 8.
pub const RULED: u32 = 0x2127_8300;

// Whether the field of a bit has a rule.
pub fn has_rule(bit: u32) -> bool
    requires { bit < 32 }
    ensures { result ≡ ruled bit }
{
    (RULED >> bit) % 2 == 1
}

// What the first word of a field is below: bandwidth (29) and sample rate (21) are not negative, level (24) and temperature (18) have a zero upper half,
// and device (17) and field 9 have zero in 31-24. Any word is below 2^32.
#[tactic(auto, unfolding(crate::specs::inner::Limits::limit_of))]
fn limit_of(bit: u32) -> u64
    ensures { result ≡ limit_of bit }
{
    match bit {
        29 | 21 => 0x8000_0000,
        24 | 18 => 0x1_0000,
        17 | 9 => 0x100_0000,
        _ => 0x1_0000_0000,
    }
}

// Whether the first word of the field of a bit is below its limit. No limit is below 2^16.
#[tactic(auto, unfolding(crate::specs::inner::Limits::first_ok))]
pub fn first_ok(bit: u32, word: u32) -> bool
    ensures { (result ≡ first_ok bit word) × (word < 2 ^ 32) }
{
    word < 0x1_0000 || (word as u64) < limit_of(bit)
}

// Device (17), by its second word.
#[tactic(auto, unfolding(crate::specs::inner::Limits::device_second))]
fn device_ok(v: u32) -> bool
    ensures { result ≡ device_second v }
{
    v / 0x1_0000 % 0x1_0000 == 0
}

// State (16), by its word.
#[tactic(auto, unfolding(crate::specs::Rules::state_rule))]
fn state_ok(u: u32) -> bool
    ensures { result ≡ state_rule (u ∷ []) }
{
    u / 0x10_0000 % 16 == 0 && u / 256 % 16 == 0
}

// Field 8, by its first word.
#[tactic(auto, unfolding(crate::specs::Rules::lists_rule))]
fn lists_ok(u: u32) -> bool
    ensures { result ≡ lists_rule (u ∷ []) }
{
    u / 0x200_0000 % 128 == 0 && u / 512 % 128 == 0
}

// What the rule of a field says of its first two words beside the limit of the first; nothing for a bit above 17.
#[tactic(auto, unfolding(crate::specs::inner::Limits::more_ok))]
pub fn more_ok(bit: u32, u: u32, v: u32) -> bool
    ensures { result ≡ more_ok bit u v }
{
    match bit {
        17 => device_ok(v),
        16 => state_ok(u),
        15 => crate::inner::format::format_ok(u),
        8 => lists_ok(u),
        _ => true,
    }
}

// Whether the field of a bit, the first of some words, obeys its rule.
#[inline(always)]
pub fn rule_of(bit: u32, ws: &[u32]) -> bool
    ensures { result ≡ rule_of bit ws.now }
{
    let first = words::inner::word_at(ws, 0);
    first_ok(bit, first) && more_ok(bit, first, words::inner::word_at(ws, 1))
}
