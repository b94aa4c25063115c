// Packets, trailers and the fields of a body.
ghost use Rattle.std.specs.Prelude.{◌≡◌, ◌+◌, ◌^◌, ◌≤◌, ◌<◌, length};
ghost use Rattle.words.specs.Listed.{on_paper};
ghost use Rattle.words.specs.Outcome.{accepted, Meets};
ghost use Rattle.fields.specs.Layout.{field_count, found_of, context_of};
ghost use Rattle.packet.specs.Told.{read_told, survey_told};
ghost use Rattle.packet_trailer.specs.Trailer.{trailer_of, trailer_word_of};
ghost use Rattle.vrt49.specs.Answers.{Tells, in_number, plain, beside};
ghost use Rattle.vrt49.specs.Packets.{packet_values, survey_values, trailer_values, found_values, words_checks, write_words_of, write_survey_words_of};

use words::Refusal;

// What reading says of a packet, as words.
fn packet_words(p: packet::Packet) -> [u32; 18]
    requires { (p.size < 2 ^ 16) × (p.place + p.length ≤ p.size) }
    ensures { result ≡ packet_values p }
{
    let parts = p.parts;
    [
        parts.kind,
        crate::answers::flag(parts.classed),
        crate::answers::flag(parts.trailed),
        crate::answers::flag(parts.tsm),
        parts.tsi,
        parts.tsf,
        parts.count,
        p.size as u32,
        parts.identifier,
        parts.oui,
        parts.information,
        parts.code,
        parts.seconds,
        (parts.fraction / 0x1_0000_0000) as u32,
        (parts.fraction % 0x1_0000_0000) as u32,
        p.place as u32,
        p.length as u32,
        parts.trailer,
    ]
}

// Reads the packet at the front of the words; answers what reading refuses, 1 to 10, with the field's bit and the word in the number. Eighteen
// values.
pub fn vrt49_read(words: &[u32], answer: &mut [u32; 18]) -> u32
    ensures { Tells packet_values (in_number (read_told words.now)) answer.old result answer.new }
{
    match packet::read(words) {
        Err(r) => crate::answers::number_for(r),
        Ok(p) => {
            *answer = packet_words(p);
            0
        }
    }
}

// What reading says of a survey packet, as words: those of the packet, and four more.
fn survey_words(s: packet::Survey) -> [u32; 22]
    requires { (s.packet.size < 2 ^ 16) × (s.packet.place + s.packet.length ≤ s.packet.size) }
    ensures { result ≡ survey_values s }
{
    let mut values = [0; 22];
    words::inner::copy_part(&mut values, 0, &packet_words(s.packet), 0, 18);
    values[18] = s.pad;
    values[19] = s.first;
    values[20] = s.second;
    values[21] = s.items;
    values
}

// Reads the packet at the front of the words as 49A; answers what reading refuses, 1 to 10, and PAD, with the bit and the word in the number. Twenty-two values:
// those of `vrt49_read`, the pad count, the two words of the payload's format, and its items; these four are zero of a type other than 1.
pub fn vrt49_read_survey(words: &[u32], answer: &mut [u32; 22]) -> u32
    ensures { Tells survey_values (in_number (survey_told words.now)) answer.old result answer.new }
{
    match packet::read_survey(words) {
        Err(r) => crate::answers::number_for(r),
        Ok(s) => {
            *answer = survey_words(s);
            0
        }
    }
}

// TYPE and VALUE, of the words that give the parts of a packet.
fn check_words(parts: &[u32]) -> Result<(), Refusal>
    requires { 15 ≤ length parts.now }
    ensures { on_paper result ≡ words_checks parts.now }
{
    if 5 < parts[0] {
        return Err(Refusal::Kind);
    }
    if 1 < parts[1] {
        return Err(Refusal::Value);
    }
    if 1 < parts[2] {
        return Err(Refusal::Value);
    }
    if 1 < parts[3] {
        return Err(Refusal::Value);
    }
    Ok(())
}

// Writes a packet whose parts are words.
fn write_words(parts: &[u32], body: &[u32], out: &mut [u32], at: usize) -> Result<usize, Refusal>
    requires { length parts.now ≡ 15 }
    ensures { Meets on_paper (write_words_of parts.now body.now out.old at) out.old result out.new }
{
    check_words(parts)?;
    packet_write::inner::write_parts(parts, body, out, at)
}

// Writes a packet from a word of a buffer on; answers what writing refuses. `length` takes the words written.
pub fn vrt49_write(
    parts: &[u32; 15],
    body: &[u32],
    out: &mut [u32],
    at: usize,
    length: &mut usize,
) -> u32
    ensures { Tells (beside plain) (write_words_of parts.now body.now out.old at) (out.old, length.old) result (out.new, length.new) }
{
    crate::answers::give_value(write_words(parts, body, out, at), length)
}

// Writes a packet as 49A, whose parts are words, the pad count the last of them.
fn write_survey_words(
    parts: &[u32],
    body: &[u32],
    out: &mut [u32],
    at: usize,
) -> Result<usize, Refusal>
    requires { length parts.now ≡ 16 }
    ensures { Meets on_paper (write_survey_words_of parts.now body.now out.old at) out.old result out.new }
{
    check_words(parts)?;
    packet_write::inner::write_survey_parts(parts, body, out, at)
}

// Writes a packet as 49A from a word of a buffer on; answers what writing refuses, PAD among it. `length` takes the words written.
pub fn vrt49_write_survey(
    parts: &[u32; 16],
    body: &[u32],
    out: &mut [u32],
    at: usize,
    length: &mut usize,
) -> u32
    ensures { Tells (beside plain) (write_survey_words_of parts.now body.now out.old at) (out.old, length.old) result (out.new, length.new) }
{
    crate::answers::give_value(write_survey_words(parts, body, out, at), length)
}

// A trailer word's parts; nothing is refused. Four values.
pub fn vrt49_trailer_parts(word: u32, answer: &mut [u32; 4]) -> u32
    ensures { Tells trailer_values (accepted (trailer_of word)) answer.old result answer.new }
{
    let t = packet_trailer::trailer_parts(word);
    *answer = [
        t.enables,
        t.indicators,
        crate::answers::flag(t.e),
        t.associated,
    ];
    0
}

// The trailer word of its parts; answers VALUE.
pub fn vrt49_trailer_word(
    enables: u32,
    indicators: u32,
    e: u32,
    associated: u32,
    word: &mut u32,
) -> u32
    ensures { Tells plain (trailer_word_of enables indicators e associated) word.old result word.new }
{
    match packet_trailer::trailer_word(enables, indicators, e, associated) {
        Err(r) => u32::from(r),
        Ok(w) => {
            *word = w;
            0
        }
    }
}

// How many fields an indicator word carries: the answer itself.
pub fn vrt49_field_count(indicator: u32) -> u32
    ensures { result ≡ field_count indicator }
{
    fields::field_count(indicator)
}

// Whether a type 4 body is as document 01 says; answers INDICATOR, LAYOUT or FIELD where it is not.
pub fn vrt49_check_body(body: &[u32]) -> u32
    ensures { Tells plain (context_of body.now) tt result tt }
{
    match fields::check_body(body) {
        Ok(()) => 0,
        Err(refusal) => u32::from(refusal),
    }
}

// Where the field of a bit stands in a type 4 body; nothing is refused. Three values: 1, its place and its words, or zeros where it is absent.
pub fn vrt49_find(body: &[u32], bit: u32, answer: &mut [usize; 3]) -> u32
    ensures { Tells found_values (accepted (found_of bit body.now)) answer.old result answer.new }
{
    match fields::find(body, bit) {
        Some(found) => {
            *answer = [1, found.at, found.words];
        }
        None => {
            *answer = [0, 0, 0];
        }
    }
    0
}
