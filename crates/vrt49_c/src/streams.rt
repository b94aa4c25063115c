// What a table says of a stream: who it is, what it counted, its own table, and which of its fields are not those of another.
ghost use Rattle.panel_streams.specs.Identity.{identity_of};
ghost use Rattle.panel_streams.specs.TypeCounts.{type_counts_of};
ghost use Rattle.panel_streams.specs.OwnTable.{own_table_of};
ghost use Rattle.panel_streams.specs.Changed.{changed_of};
ghost use Rattle.vrt49.specs.Answers.{Tells, plain, beside};
ghost use Rattle.vrt49.specs.Streams.{identity_values, count_values};

#[unsafe(no_mangle)]
pub extern "C" fn vrt49_identity(
    table: &[u32],
    stream: usize,
    identifier: &mut u32,
    choice: &mut u32,
    held: &mut u32,
) -> u32
    ensures { Tells identity_values (identity_of table.now stream) (identifier.old, choice.old, held.old) result (identifier.new, choice.new, held.new) }
{
    vrt49::vrt49_identity(table, stream, identifier, choice, held)
}

#[unsafe(no_mangle)]
pub extern "C" fn vrt49_counts(
    table: &[u32],
    stream: usize,
    kind: u32,
    answer: &mut [u32; 4],
) -> u32
    ensures { Tells count_values (type_counts_of table.now stream kind) answer.old result answer.new }
{
    vrt49::vrt49_counts(table, stream, kind, answer)
}

#[unsafe(no_mangle)]
pub extern "C" fn vrt49_own_table(
    table: &[u32],
    stream: usize,
    out: &mut [u32],
    length: &mut usize,
) -> u32
    ensures { Tells (beside plain) (own_table_of table.now stream out.old) (out.old, length.old) result (out.new, length.new) }
{
    vrt49::vrt49_own_table(table, stream, out, length)
}

#[unsafe(no_mangle)]
pub extern "C" fn vrt49_changed(
    before: &[u32],
    before_stream: usize,
    after: &[u32],
    after_stream: usize,
    fields: &mut u32,
) -> u32
    ensures { Tells plain (changed_of before.now before_stream after.now after_stream) fields.old result fields.new }
{
    vrt49::vrt49_changed(before, before_stream, after, after_stream, fields)
}
