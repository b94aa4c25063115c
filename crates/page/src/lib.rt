// The page of a table: save and put back.
#![tactic(auto)]

mod bodies;
mod contents;
mod good;
mod putting;
mod saving;

ghost use Rattle.std.specs.Prelude.{◌≡◌};
ghost use Rattle.words.specs.Listed.{on_paper};
ghost use Rattle.words.specs.Outcome.{Meets};
ghost use Rattle.page.specs.Save.{length_of, save_of};
ghost use Rattle.page.specs.PutBack.{put_back_of};

use words::Refusal;

// SIZE: "a packet to be written, or a page, exceeds 65,535 words".
const SIZE_LIMIT: usize = 65535;

// The length of the page of a table, for a caller who must make room: TABLE where the table is not well made; SIZE where the page exceeds 65,535 words.
pub fn page_length(table: &[u32]) -> Result<usize, Refusal>
    ensures { on_paper result ≡ length_of table.now }
{
    if !table::well_made(table) {
        return Err(Refusal::Table);
    }
    let length = bodies::page_words(table);
    if SIZE_LIMIT < length {
        return Err(Refusal::Size);
    }
    Ok(length)
}

// Saves a table: writes its page into the front of a buffer, and answers the page's length. TABLE and SIZE as `page_length` has them; ROOM where the buffer is
// shorter than the page. A refusal changes nothing; words past the page stay.
pub fn save(table: &[u32], page: &mut [u32]) -> Result<usize, Refusal>
    ensures { Meets on_paper (save_of table.now page.old) page.old result page.new }
{
    let length = page_length(table)?;
    if page.len() < length {
        return Err(Refusal::Room);
    }
    saving::write_page(page, table, length);
    Ok(length)
}

// Puts a table back from its page, and answers the layout's length: PAGE where the words are not exactly one well-made page; ROOM where the table is shorter
// than the layout. A refusal changes nothing; words past the layout stay.
pub fn put_back(page: &[u32], table: &mut [u32]) -> Result<usize, Refusal>
    ensures { Meets on_paper (put_back_of page.now table.old) table.old result table.new }
{
    if !good::page_ok(page) {
        return Err(Refusal::Page);
    }
    let length = table::inner::layout_words(words::inner::word_at(page, 0) as usize);
    if table.len() < length {
        return Err(Refusal::Room);
    }
    putting::write_table(table, page);
    Ok(length)
}
