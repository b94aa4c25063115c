// The records of a table: made fresh, and tested.
ghost use Rattle.std.specs.Prelude.{◌≡◌, ◌++◌, ◌+◌, ◌≤◌, ◌<◌, length, take, drop};
ghost use Rattle.words.specs.All.{all};
ghost use Rattle.table.specs.Layout.{base, Has, with_record};
ghost use Rattle.table.specs.Well.{record_good_at};
ghost use Rattle.table.specs.Start.{fresh_record, fresh_records};

// The record of stream s made fresh: a zeroed array with the identifier and the choice, copied in.
fn write_record(table: &mut [u32], s: usize, identifier: u32, choice: u32)
    requires { (s < 32) × Has s table.old }
    ensures { table.new ≡ with_record s (fresh_record identifier choice) table.old }
{
    let mut rec = [0u32; record::inner::RECORD_WORDS];
    rec[0] = identifier;
    rec[record::inner::CHOICE_AT] = choice;
    let at = crate::layout::record_at(s);
    words::inner::copy_part(table, at, &rec, 0, record::inner::RECORD_WORDS);
}

// The records of a list made fresh, behind word 0: it has as many choices as identifiers.
pub fn write_records(table: &mut [u32], ids: &[u32], choices: &[u32])
    requires { (length choices.now ≡ length ids.now) × (length ids.now ≤ 32) × (base (length ids.now) ≤ length table.old) }
    ensures { table.new ≡ take 1 table.old ++ (fresh_records ids.now choices.now ++ drop (base (length ids.now)) table.old) }
{
    for s in 0..ids.len() {
        write_record(table, s, ids[s], choices[s]);
    }
}

// Whether the record of stream s is good.
fn record_good_at(table: &[u32], s: usize) -> bool
    requires { (s < 32) × Has s table.now }
    ensures { result ≡ record_good_at table.now s }
{
    record::inner::record_good(crate::layout::record_in(table, s))
}

// Whether the records of n streams are good.
pub fn records_good(table: &[u32], n: usize) -> bool
    requires { (n ≤ 32) × (base n ≤ length table.now) }
    ensures { result ≡ all n (record_good_at table.now) }
{
    for s in 0..n {
        if !record_good_at(table, s) {
            return false;
        }
    }
    true
}
