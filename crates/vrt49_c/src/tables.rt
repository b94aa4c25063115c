// Tables of streams: started, tested, and played on.
ghost use Rattle.std.specs.Prelude.{◌≡◌};
ghost use Rattle.words.specs.Tests.{when};
ghost use Rattle.table.specs.Start.{start_of};
ghost use Rattle.table.specs.Well.{well_made};
ghost use Rattle.play.specs.Play.{play_told};
ghost use Rattle.play.specs.Run.{run_of};
ghost use Rattle.vrt49.specs.Answers.{Tells, in_number, plain, beside};
ghost use Rattle.vrt49.specs.Tables.{heard_values, reached_values};

#[unsafe(no_mangle)]
pub extern "C" fn vrt49_start(
    ids: &[u32],
    choices: &[u32],
    table: &mut [u32],
    length: &mut usize,
) -> u32
    ensures { Tells (beside plain) (start_of ids.now choices.now table.old) (table.old, length.old) result (table.new, length.new) }
{
    vrt49::vrt49_start(ids, choices, table, length)
}

#[unsafe(no_mangle)]
pub extern "C" fn vrt49_well_made(table: &[u32]) -> u32
    ensures { result ≡ when (well_made table.now) 1 }
{
    vrt49::vrt49_well_made(table)
}

#[unsafe(no_mangle)]
pub extern "C" fn vrt49_play(table: &mut [u32], words: &[u32], answer: &mut [u32; 4]) -> u32
    ensures { Tells (beside heard_values) (in_number (play_told table.old words.now)) (table.old, answer.old) result (table.new, answer.new) }
{
    vrt49::vrt49_play(table, words, answer)
}

#[unsafe(no_mangle)]
pub extern "C" fn vrt49_play_run(
    table: &mut [u32],
    words: &[u32],
    from: usize,
    answers: &mut [u32],
    packets: &mut usize,
    next: &mut usize,
) -> u32
    ensures { Tells (beside reached_values) (run_of table.old words.now from answers.old) ((table.old, answers.old), (packets.old, next.old)) result ((table.new, answers.new), (packets.new, next.new)) }
{
    vrt49::vrt49_play_run(table, words, from, answers, packets, next)
}
