// Tables of streams: started, tested, and played on.
ghost use Rattle.std.specs.Prelude.{◌≡◌, ◌^◌, ◌≤◌, ◌<◌};
ghost use Rattle.words.specs.Tests.{when};
ghost use Rattle.table.specs.Start.{start_of};
ghost use Rattle.table.specs.Well.{well_made};
ghost use Rattle.play.specs.Play.{play_told};
ghost use Rattle.play.specs.Run.{run_of};
ghost use Rattle.vrt49.specs.Answers.{Tells, in_number, plain, beside};
ghost use Rattle.vrt49.specs.Tables.{heard_values, reached_values};

// Starts a table for identifiers and their choices; answers LIST or ROOM. `length` takes the layout's words.
pub fn vrt49_start(ids: &[u32], choices: &[u32], table: &mut [u32], length: &mut usize) -> u32
    ensures { Tells (beside plain) (start_of ids.now choices.now table.old) (table.old, length.old) result (table.new, length.new) }
{
    crate::answers::give_value(table::start(ids, choices, table), length)
}

// Whether a table is well made: 1 or 0.
pub fn vrt49_well_made(table: &[u32]) -> u32
    ensures { result ≡ when (well_made table.now) 1 }
{
    crate::answers::flag(table::well_made(table))
}

// What playing says of a packet, as words.
fn heard_words(h: play::Heard) -> [u32; 4]
    requires { (h.size < 2 ^ 16) × (h.stream ≤ 31) }
    ensures { result ≡ heard_values h }
{
    [h.size as u32, h.kind, h.stream as u32, h.missing]
}

// Plays the packet at the front of the words; answers TABLE, what reading refuses, or STREAM, with the field's bit and the word in the number. Four values: size,
// type, stream, missing.
pub fn vrt49_play(table: &mut [u32], words: &[u32], answer: &mut [u32; 4]) -> u32
    ensures { Tells (beside heard_values) (in_number (play_told table.old words.now)) (table.old, answer.old) result (table.new, answer.new) }
{
    match play::play(table, words) {
        Err(r) => crate::answers::number_for(r),
        Ok(h) => {
            *answer = heard_words(h);
            0
        }
    }
}

// Plays packets from a place on, five words of answers for each; answers TABLE. `packets` takes how many have an entry, and `next` the place after them.
pub fn vrt49_play_run(
    table: &mut [u32],
    words: &[u32],
    from: usize,
    answers: &mut [u32],
    packets: &mut usize,
    next: &mut usize,
) -> u32
    ensures { Tells (beside reached_values) (run_of table.old words.now from answers.old) ((table.old, answers.old), (packets.old, next.old)) result ((table.new, answers.new), (packets.new, next.new)) }
{
    match play::play_run(table, words, from, answers) {
        Err(r) => u32::from(r),
        Ok(r) => {
            *packets = r.packets;
            *next = r.next;
            0
        }
    }
}
