// What a table says of a stream: who it is, what it counted, its own table, and which of its fields are not those of another.
ghost use Rattle.panel_streams.specs.Identity.{identity_of};
ghost use Rattle.panel_streams.specs.TypeCounts.{type_counts_of};
ghost use Rattle.panel_streams.specs.OwnTable.{own_table_of};
ghost use Rattle.panel_streams.specs.Changed.{changed_of};
ghost use Rattle.vrt49.specs.Answers.{Tells, plain, beside};
ghost use Rattle.vrt49.specs.Streams.{identity_values, count_values};

// The identifier of a stream, its choice, and its held indicator; answers TABLE or STREAM.
pub fn vrt49_identity(
    table: &[u32],
    stream: usize,
    identifier: &mut u32,
    choice: &mut u32,
    held: &mut u32,
) -> u32
    ensures { Tells identity_values (identity_of table.now stream) (identifier.old, choice.old, held.old) result (identifier.new, choice.new, held.new) }
{
    match panel_streams::identity(table, stream) {
        Err(refusal) => u32::from(refusal),
        Ok(who) => {
            *identifier = who.identifier;
            *choice = who.choice;
            *held = who.held;
            0
        }
    }
}

// What a stream counted of a type; answers TABLE, STREAM or VALUE. Four values: started, seen, missing, last.
pub fn vrt49_counts(table: &[u32], stream: usize, kind: u32, answer: &mut [u32; 4]) -> u32
    ensures { Tells count_values (type_counts_of table.now stream kind) answer.old result answer.new }
{
    match panel_streams::counts(table, stream, kind) {
        Err(refusal) => u32::from(refusal),
        Ok(Some(counts)) => {
            *answer = [1, counts.seen, counts.missing, counts.last];
            0
        }
        Ok(None) => {
            *answer = [0, 0, 0, 0];
            0
        }
    }
}

// The record of a stream as a table of its own, at the front of a buffer; answers TABLE, STREAM or ROOM. `length` takes the words of its layout.
pub fn vrt49_own_table(table: &[u32], stream: usize, out: &mut [u32], length: &mut usize) -> u32
    ensures { Tells (beside plain) (own_table_of table.now stream out.old) (out.old, length.old) result (out.new, length.new) }
{
    crate::answers::give_value(panel_streams::own_table(table, stream, out), length)
}

// The bits of the fields for which two streams do not hold the same words; answers TABLE or STREAM, of either.
pub fn vrt49_changed(
    before: &[u32],
    before_stream: usize,
    after: &[u32],
    after_stream: usize,
    fields: &mut u32,
) -> u32
    ensures { Tells plain (changed_of before.now before_stream after.now after_stream) fields.old result fields.new }
{
    match panel_streams::changed(before, before_stream, after, after_stream) {
        Err(refusal) => u32::from(refusal),
        Ok(bits) => {
            *fields = bits;
            0
        }
    }
}
