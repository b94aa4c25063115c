// Whether a stream may be asked for by its number: the refusals that every call shares which is handed a table and a stream.
ghost use Rattle.std.specs.Prelude.{◌≡◌};
ghost use Rattle.words.specs.Listed.{on_paper};
ghost use Rattle.table.specs.inner.Checked.{stream_checks};

// TABLE, then STREAM.
pub fn check_stream(table: &[u32], stream: usize) -> Result<(), words::Refusal>
    ensures { on_paper result ≡ stream_checks table.now stream }
{
    if !crate::well_made(table) {
        return Err(words::Refusal::Table);
    }
    if crate::layout::streams(table) <= stream {
        return Err(words::Refusal::Stream);
    }
    Ok(())
}
