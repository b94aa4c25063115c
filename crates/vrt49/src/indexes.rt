// The index beside a recording: started, grown, and jumped by.
ghost use Rattle.std.specs.Prelude.{◌≡◌};
ghost use Rattle.index.specs.Start.{start_index_of};
ghost use Rattle.index_grow.specs.declared.Taken.TheVariants.{Declared, Undeclared};
ghost use Rattle.index_grow.specs.Grow.{grow_told};
ghost use Rattle.index_jump.specs.Jump.{jump_of};
ghost use Rattle.vrt49.specs.Answers.{Tells, in_number, plain, beside};
ghost use Rattle.vrt49.specs.Indexes.{taken_values, landed_values, SmallTaken};

// Starts an index for a table at boundary 0; answers TABLE or ROOM. `length` takes the words that the index has then.
pub fn vrt49_start_index(table: &[u32], index: &mut [u32], length: &mut usize) -> u32
    ensures { Tells (beside plain) (start_index_of table.now index.old) (index.old, length.old) result (index.new, length.new) }
{
    crate::answers::give_value(index::start_index(table, index), length)
}

// The words of an entry: of a packet that was heard, and of one of no declared stream.
fn heard_entry(h: play::Heard) -> [u32; 5]
    requires { SmallTaken (Declared h) }
    ensures { result ≡ taken_values (Declared h) }
{
    [0, h.size as u32, h.kind, h.stream as u32, h.missing]
}

fn stranger_entry(s: index_grow::Stranger) -> [u32; 5]
    requires { SmallTaken (Undeclared s) }
    ensures { result ≡ taken_values (Undeclared s) }
{
    [
        u32::from(words::Refusal::Stream),
        s.size as u32,
        s.place as u32,
        0,
        0,
    ]
}

// What growing says of a packet, as the words of an entry.
fn taken_words(taken: index_grow::Taken) -> [u32; 5]
    requires { SmallTaken taken }
    ensures { result ≡ taken_values taken }
{
    match taken {
        index_grow::Taken::Declared(h) => heard_entry(h),
        index_grow::Taken::Undeclared(s) => stranger_entry(s),
    }
}

// Takes the recording's next packet in, the first of the words; answers TABLE, PAGE, what reading refuses, with the field's bit and the word in the number, or
// ROOM. Five values, as an entry of a run has them: 0, size, type, stream and missing, or STREAM's number, size, the word, 0 and 0.
pub fn vrt49_grow(table: &mut [u32], words: &[u32], index: &mut [u32], answer: &mut [u32; 5]) -> u32
    ensures { Tells (beside taken_values) (in_number (grow_told table.old words.now index.old)) ((table.old, index.old), answer.old) result ((table.new, index.new), answer.new) }
{
    match index_grow::grow(table, words, index) {
        Err(r) => crate::answers::number_for(r),
        Ok(taken) => {
            *answer = taken_words(taken);
            0
        }
    }
}

// Jumps to packet n of a recording whose words are handed in from word `first` on; answers PAGE, PLACE, PAGE or ROOM. `length` takes the layout's words, and
// `place` the packet's word place.
pub fn vrt49_jump(
    words: &[u32],
    first: u64,
    index: &[u32],
    n: u64,
    table: &mut [u32],
    length: &mut usize,
    place: &mut u64,
) -> u32
    ensures { Tells (beside landed_values) (jump_of words.now first index.now n table.old) (table.old, (length.old, place.old)) result (table.new, (length.new, place.new)) }
{
    match index_jump::jump(words, first, index, n, table) {
        Err(refusal) => u32::from(refusal),
        Ok(l) => {
            *length = l.length;
            *place = l.place;
            0
        }
    }
}
