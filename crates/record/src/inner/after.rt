// A record after an accepted packet.
ghost use Rattle.std.specs.Prelude.{◌≡◌, true, [], ◌∷◌, ◌<◌, length};
ghost use Rattle.words.specs.Tests.{among};
ghost use Rattle.words.specs.Outcome.{accepted};
ghost use Rattle.fields.specs.Layout.{context_of};
ghost use Rattle.record.specs.Layout.{record_words};
ghost use Rattle.record.specs.After.{record_after, added_by};
ghost use Rattle.record.specs.Good.{record_good};

// Takes an accepted packet of a type other than 4 into the record of its stream: its type is counted. Gives the missing that it adds.
pub fn hear_data(rec: &mut [u32], kind: u32, count: u32) -> u32
    requires { (length rec.old ≡ record_words) × (record_good rec.old ≡ true) × (count < 16) × (among kind (1 ∷ 3 ∷ 5 ∷ []) ≡ true) }
    ensures { (result ≡ added_by kind count rec.old) × (rec.new ≡ record_after kind count [] rec.old) }
{
    let order = crate::inner::counts::type_order(kind);
    crate::inner::counts::count(rec, order, count)
}

// Takes an accepted Context packet into the record of its stream: it is counted, and its fields are held. Gives the missing that it adds.
pub fn hear_context(rec: &mut [u32], count: u32, body: &[u32]) -> u32
    requires { (length rec.old ≡ record_words) × (record_good rec.old ≡ true) × (count < 16) × (context_of body.now ≡ accepted tt) }
    ensures { (result ≡ added_by 4 count rec.old) × (rec.new ≡ record_after 4 count body.now rec.old) }
{
    let more = crate::inner::counts::count(rec, crate::inner::counts::CONTEXT_ORDER, count);
    crate::inner::held::hold(rec, body);
    more
}
