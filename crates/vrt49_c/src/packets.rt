// Packets, trailers and the fields of a body.
ghost use Rattle.std.specs.Prelude.{◌≡◌};
ghost use Rattle.words.specs.Outcome.{accepted};
ghost use Rattle.fields.specs.Layout.{field_count, found_of, context_of};
ghost use Rattle.packet.specs.Told.{read_told, survey_told};
ghost use Rattle.packet_trailer.specs.Trailer.{trailer_of, trailer_word_of};
ghost use Rattle.vrt49.specs.Answers.{Tells, in_number, plain, beside};
ghost use Rattle.vrt49.specs.Packets.{packet_values, survey_values, trailer_values, found_values, write_words_of, write_survey_words_of};

#[unsafe(no_mangle)]
pub extern "C" fn vrt49_read(words: &[u32], answer: &mut [u32; 18]) -> u32
    ensures { Tells packet_values (in_number (read_told words.now)) answer.old result answer.new }
{
    vrt49::vrt49_read(words, answer)
}

#[unsafe(no_mangle)]
pub extern "C" fn vrt49_read_survey(words: &[u32], answer: &mut [u32; 22]) -> u32
    ensures { Tells survey_values (in_number (survey_told words.now)) answer.old result answer.new }
{
    vrt49::vrt49_read_survey(words, answer)
}

#[unsafe(no_mangle)]
pub extern "C" fn vrt49_write(
    parts: &[u32; 15],
    body: &[u32],
    out: &mut [u32],
    at: usize,
    length: &mut usize,
) -> u32
    ensures { Tells (beside plain) (write_words_of parts.now body.now out.old at) (out.old, length.old) result (out.new, length.new) }
{
    vrt49::vrt49_write(parts, body, out, at, length)
}

#[unsafe(no_mangle)]
pub extern "C" fn vrt49_write_survey(
    parts: &[u32; 16],
    body: &[u32],
    out: &mut [u32],
    at: usize,
    length: &mut usize,
) -> u32
    ensures { Tells (beside plain) (write_survey_words_of parts.now body.now out.old at) (out.old, length.old) result (out.new, length.new) }
{
    vrt49::vrt49_write_survey(parts, body, out, at, length)
}

#[unsafe(no_mangle)]
pub extern "C" fn vrt49_trailer_parts(word: u32, answer: &mut [u32; 4]) -> u32
    ensures { Tells trailer_values (accepted (trailer_of word)) answer.old result answer.new }
{
    vrt49::vrt49_trailer_parts(word, answer)
}

#[unsafe(no_mangle)]
pub extern "C" fn vrt49_trailer_word(
    enables: u32,
    indicators: u32,
    e: u32,
    associated: u32,
    word: &mut u32,
) -> u32
    ensures { Tells plain (trailer_word_of enables indicators e associated) word.old result word.new }
{
    vrt49::vrt49_trailer_word(enables, indicators, e, associated, word)
}

#[unsafe(no_mangle)]
pub extern "C" fn vrt49_field_count(indicator: u32) -> u32
    ensures { result ≡ field_count indicator }
{
    vrt49::vrt49_field_count(indicator)
}

#[unsafe(no_mangle)]
pub extern "C" fn vrt49_check_body(body: &[u32]) -> u32
    ensures { Tells plain (context_of body.now) tt result tt }
{
    vrt49::vrt49_check_body(body)
}

#[unsafe(no_mangle)]
pub extern "C" fn vrt49_find(body: &[u32], bit: u32, answer: &mut [usize; 3]) -> u32
    ensures { Tells found_values (accepted (found_of bit body.now)) answer.old result answer.new }
{
    vrt49::vrt49_find(body, bit, answer)
}
