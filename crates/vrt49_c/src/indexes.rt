// The index beside a recording: started, grown, and jumped by.
ghost use Rattle.index.specs.Start.{start_index_of};
ghost use Rattle.index_grow.specs.Grow.{grow_told};
ghost use Rattle.index_jump.specs.Jump.{jump_of};
ghost use Rattle.vrt49.specs.Answers.{Tells, in_number, plain, beside};
ghost use Rattle.vrt49.specs.Indexes.{taken_values, landed_values};

#[unsafe(no_mangle)]
pub extern "C" fn vrt49_start_index(table: &[u32], index: &mut [u32], length: &mut usize) -> u32
    ensures { Tells (beside plain) (start_index_of table.now index.old) (index.old, length.old) result (index.new, length.new) }
{
    vrt49::vrt49_start_index(table, index, length)
}

#[unsafe(no_mangle)]
pub extern "C" fn vrt49_grow(
    table: &mut [u32],
    words: &[u32],
    index: &mut [u32],
    answer: &mut [u32; 5],
) -> u32
    ensures { Tells (beside taken_values) (in_number (grow_told table.old words.now index.old)) ((table.old, index.old), answer.old) result ((table.new, index.new), answer.new) }
{
    vrt49::vrt49_grow(table, words, index, answer)
}

#[unsafe(no_mangle)]
pub extern "C" fn vrt49_jump(
    words: &[u32],
    first: u64,
    index: &[u32],
    n: u64,
    table: &mut [u32],
    length: &mut usize,
    place: &mut u64,
) -> u32
    ensures { Tells (beside landed_values) (jump_of words.now first index.now n table.old) (table.old, (length.old, place.old)) result (table.new, (length.new, place.new)) }
{
    vrt49::vrt49_jump(words, first, index, n, table, length, place)
}
