// The stream of a packet, its record, and the refusals on the way.
ghost use Rattle.std.specs.Prelude.{◌≡◌, true, [], ◌∷◌, ◌<◌};
ghost use Rattle.words.specs.Numbers.{STREAM};
ghost use Rattle.words.specs.Tests.{pick, among};
ghost use Rattle.words.specs.Outcome.{refused};
ghost use Rattle.packet.specs.Header.{type_of, count_of};
ghost use Rattle.record.specs.After.{record_after, added_by};
ghost use Rattle.table.specs.Layout.{streams_of, record_at, with_record};
ghost use Rattle.table.specs.Well.{well_made};
ghost use Rattle.play.specs.inner.Steps.{sought_paper};
ghost use Rattle.play.specs.inner.Entered.{declared_of, Sized, Headed, sought_in, chosen_at, HeardAs};

// The stream of an identifier; STREAM where it is not declared.
fn seek_stream(table: &[u32], identifier: u32) -> Option<usize>
    requires { well_made table.now ≡ true }
    ensures { sought_paper result ≡ declared_of identifier table.now }
{
    for s in 0..table[0] as usize {
        if table[table::inner::record_at(s)] == identifier {
            return Some(s);
        }
    }
    None
}

// STREAM: a packet may have no identifier, and one that it has may not be declared.
fn seek_streamed(table: &[u32], streamed: bool, identifier: u32) -> Option<usize>
    requires { well_made table.now ≡ true }
    ensures { sought_paper result ≡ pick streamed (declared_of identifier table.now) (refused STREAM) }
{
    if streamed {
        return seek_stream(table, identifier);
    }
    None
}

// The stream of a packet whose header and size are right; STREAM where the table has none for it.
pub fn seek(table: &[u32], given: &[u32], w: u32) -> Option<usize>
    requires { (well_made table.now ≡ true) × Sized w given.now }
    ensures { sought_paper result ≡ sought_in w given.now table.now }
{
    let identifier = packet::inner::identifier_of(w, given);
    seek_streamed(table, packet::inner::has_stream(w), identifier)
}

// Whether 49A is chosen for stream s.
pub fn is_survey(table: &[u32], s: usize) -> bool
    requires { (well_made table.now ≡ true) × (s < streams_of table.now) }
    ensures { result ≡ chosen_at s table.now }
{
    table[table::inner::record_at(s) + record::inner::CHOICE_AT] == 1
}

// Takes an accepted packet of a type other than 4 into the record of its stream. Gives the missing that it adds.
pub fn hear_data(table: &mut [u32], s: usize, w: u32) -> u32
    requires { (well_made table.old ≡ true) × (s < streams_of table.old) × (among (type_of w) (1 ∷ 3 ∷ 5 ∷ []) ≡ true) }
    ensures { (result ≡ added_by (type_of w) (count_of w) (record_at s table.old)) × (table.new ≡ with_record s (record_after (type_of w) (count_of w) [] (record_at s table.old)) table.old) }
{
    let kind = packet::inner::type_of(w);
    let count = packet::inner::count_of(w);
    let first = table::inner::record_at(s);
    let end = first + record::inner::RECORD_WORDS;
    record::inner::hear_data(&mut table[first..end], kind, count)
}

// Takes an accepted Context packet into the record of its stream. Gives the missing that it adds.
pub fn hear_context(table: &mut [u32], s: usize, given: &[u32], w: u32) -> u32
    requires { (well_made table.old ≡ true) × (s < streams_of table.old) × Headed w given.now table.old × (type_of w ≡ 4) }
    ensures { HeardAs w s given.now table.old result table.new }
{
    let count = packet::inner::count_of(w);
    let at = table::inner::record_at(s);
    let end = at + record::inner::RECORD_WORDS;
    let from = packet::inner::body_at(w);
    let to = packet::inner::body_end(w);
    record::inner::hear_context(&mut table[at..end], count, &given[from..to])
}
