// Where the fields of a body end, and whether they obey their rules.
ghost use Rattle.std.specs.Prelude.{◌≡◌, true, false, suc, ◌^◌, ◌+◌, ◌≤◌, ◌<◌, drop, IfSome, IfNone};
ghost use Rattle.words.specs.Tests.{when};
ghost use Rattle.words.specs.Word.{has};
ghost use Rattle.words.specs.SetBits.{bits_of, above};
ghost use Rattle.fields.specs.Sizes.{sizes_of, words_of};
ghost use Rattle.fields.specs.Rules.{rule_of};
ghost use Rattle.fields.specs.Layout.{span_of, obeyed};

use crate::inner::carried::Fields;
use crate::inner::rules::{first_ok, has_rule, rule_of};
use crate::inner::sizes::{field_size, fixed_words, words_from, words_of};

// The words that the field of a bit, the first of some words, takes: none where the bits do not have it.
fn taken(bits: u32, bit: u32, ws: &[u32]) -> usize
    requires { bit < 31 }
    ensures { (result ≡ when (has bits bit) (words_of bit ws.now)) × (result ≤ 2 ^ 33) }
{
    if (bits >> bit) % 2 == 1 {
        words_of(bit, ws)
    } else {
        0
    }
}

// The place behind the fields of some bits from 9 up, which stand in a body from word 1 on: those of fixed size by counts of ones, and field 9 by what it says.
pub fn behind(bits: u32, body: &[u32]) -> usize
    requires { has bits 8 ≡ false }
    ensures { result ≡ 1 + span_of (bits_of 31 bits) (drop 1 body.now) }
{
    let fixed = 1 + fixed_words(bits);
    fixed + taken(bits, 9, words_from(body, fixed))
}

// The place past the fields of some bits of an indicator, which stand in a body from word 1 on: those of fixed size by counts of ones, and behind them fields 9
// and 8 by what they say.
pub fn end_of(bits: u32, body: &[u32]) -> usize
    ensures { result ≡ 1 + span_of (bits_of 31 bits) (drop 1 body.now) }
{
    let fixed = 1 + fixed_words(bits);
    if bits / 256 % 4 == 0 {
        return fixed;
    }
    let past = fixed + taken(bits, 9, words_from(body, fixed));
    past + taken(bits, 8, words_from(body, past))
}

// Whether the field of a bit, the first of some words, obeys its rule, if it has one. It is put in line with both its callers, and so is `rule_of`: else a body
// that is accepted, with fields below bit 18, is checked in up to a third more instructions.
#[inline(always)]
pub fn field_kept(bit: u32, ws: &[u32]) -> bool
    requires { bit < 32 }
    ensures { result ≡ rule_of bit ws.now }
{
    !has_rule(bit) || rule_of(bit, ws)
}

// The place past the fields of the bits from `first` down to the one above `past`, which stand in a body from a place on, if each obeys its rule.
fn walk(bits: u32, body: &[u32], at: usize, first: u32, past: u32) -> Option<usize>
    requires { (17 ≤ past) × (past ≤ first) × (first ≤ 30) × (at < 2 ^ 20) }
    ensures kept { IfSome result (λ p. (obeyed (above past (bits_of (suc first) bits)) (drop at body.now) ≡ true) × (p ≡ at + sizes_of (above past (bits_of (suc first) bits))) × (p ≤ at + 74)) }
    ensures broken { IfNone result (obeyed (above past (bits_of (suc first) bits)) (drop at body.now) ≡ false) }
{
    let mut place = at;
    for bit in (past + 1..first + 1).rev() {
        if (bits >> bit) % 2 == 1 {
            if !first_ok(bit, words::inner::word_at(body, place)) {
                return None;
            }
            place += field_size(bit);
        }
    }
    Some(place)
}

// Whether the fields of some bits below 18, the first of some words, obey their rules: a walk, as long as a bit is left that has one.
fn low_kept(bits: u32, ws: &[u32]) -> bool
    requires { bits < 2 ^ 18 }
    ensures { result ≡ obeyed (bits_of 18 bits) ws.now }
{
    let mut rest = ws;
    for bit in Fields(bits) {
        if !field_kept(bit, rest) {
            return false;
        }
        rest = words_from(rest, words_of(bit, rest));
    }
    true
}

// Whether the fields of some bits of an indicator, which stand in a body from word 1 on, obey their rules. Those above bit 17 are walked in two parts: a loop
// of at most ten turns between known bits is unrolled by the compiler, which then knows each size and each limit (docs/SPEED.md).
pub fn rules_kept(bits: u32, body: &[u32]) -> bool
    ensures { result ≡ obeyed (bits_of 31 bits) (drop 1 body.now) }
{
    let Some(middle) = walk(bits, body, 1, 30, 21) else {
        return false;
    };
    let Some(low) = walk(bits, body, middle, 21, 17) else {
        return false;
    };
    low_kept(bits % 0x4_0000, words_from(body, low))
}
