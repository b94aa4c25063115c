// The page of a table: its length, saved, and put back.
ghost use Rattle.page.specs.Save.{length_of, save_of};
ghost use Rattle.page.specs.PutBack.{put_back_of};
ghost use Rattle.vrt49.specs.Answers.{Tells, plain, beside};

// The length of a table's page; answers TABLE or SIZE.
pub fn vrt49_page_length(table: &[u32], length: &mut usize) -> u32
    ensures { Tells plain (length_of table.now) length.old result length.new }
{
    crate::answers::give_value(page::page_length(table), length)
}

// Saves a table's page; answers TABLE, SIZE or ROOM. `length` takes the page's length.
pub fn vrt49_save(table: &[u32], page: &mut [u32], length: &mut usize) -> u32
    ensures { Tells (beside plain) (save_of table.now page.old) (page.old, length.old) result (page.new, length.new) }
{
    crate::answers::give_value(page::save(table, page), length)
}

// Puts a page back; answers PAGE or ROOM. `length` takes the layout's words.
pub fn vrt49_put_back(page: &[u32], table: &mut [u32], length: &mut usize) -> u32
    ensures { Tells (beside plain) (put_back_of page.now table.old) (table.old, length.old) result (table.new, length.new) }
{
    crate::answers::give_value(page::put_back(page, table), length)
}
