// Runs cases of packed samples: reads them from standard input, as big-endian words, and prints what each call answers and leaves.
#![tactic(auto)]

mod input;
mod output;

use input::{count, read_channels, read_events, read_items, read_words};
use output::{
    blank_channels, blank_events, blank_items, blank_words, print_accepted, print_channels,
    print_coordinates, print_events, print_items, print_refused, print_signed, print_words,
};
use payload_order::Coordinates;
use std::io;
use std::io::{Read, Write};

// Op 1: first, second, n, the room of each buffer, m, then m words.
fn unpack_case(input: &mut impl Read, output: &mut impl Write, k: u64) -> io::Result<()> {
    let first = lines::inner::word(input)?;
    let second = lines::inner::word(input)?;
    let n = lines::inner::word(input)? as usize;
    let room_items = count(input)?;
    let room_events = count(input)?;
    let room_channels = count(input)?;
    let m = count(input)?;
    let ws = read_words(input, m)?;
    let mut items = blank_items();
    let mut events = blank_events();
    let mut channels = blank_channels();
    let r = payload_unpack::unpack(
        first,
        second,
        n,
        &ws[..m],
        &mut items[..room_items],
        &mut events[..room_events],
        &mut channels[..room_channels],
    );
    match r {
        Ok(v) => print_accepted(output, k, b" unpacked ", v as u64)?,
        Err(e) => print_refused(output, k, u32::from(e))?,
    }
    print_items(output, room_items, &items)?;
    print_events(output, room_events, &events)?;
    print_channels(output, room_channels, &channels)
}

// Op 2: first, second, how many items, event tags and channel tags, the room, then the three lists.
fn pack_case(input: &mut impl Read, output: &mut impl Write, k: u64) -> io::Result<()> {
    let first = lines::inner::word(input)?;
    let second = lines::inner::word(input)?;
    let ni = count(input)?;
    let ne = count(input)?;
    let nc = count(input)?;
    let room = count(input)?;
    let items = read_items(input, ni)?;
    let events = read_events(input, ne)?;
    let channels = read_channels(input, nc)?;
    let mut out = blank_words();
    let r = payload_pack::pack(
        first,
        second,
        &items[..ni],
        &events[..ne],
        &channels[..nc],
        &mut out[..room],
    );
    match r {
        Ok(w) => print_accepted(output, k, b" packed ", w as u64)?,
        Err(e) => print_refused(output, k, u32::from(e))?,
    }
    print_words(output, room, &out)
}

// Op 3: width, and the item as two words, high first.
fn signed_case(input: &mut impl Read, output: &mut impl Write, k: u64) -> io::Result<()> {
    let width = lines::inner::word(input)?;
    let high = lines::inner::word(input)?;
    let low = lines::inner::word(input)?;
    let r = payload_format::signed(width, words::inner::high_first(high, low));
    match r {
        Ok(v) => print_signed(output, k, v),
        Err(e) => print_refused(output, k, u32::from(e)),
    }
}

// Op 4: first, second, n.
fn needed_case(input: &mut impl Read, output: &mut impl Write, k: u64) -> io::Result<()> {
    let first = lines::inner::word(input)?;
    let second = lines::inner::word(input)?;
    let n = lines::inner::word(input)? as usize;
    let r = payload_format::words_needed(first, second, n);
    match r {
        Ok(w) => print_accepted(output, k, b" words ", w as u64),
        Err(e) => print_refused(output, k, u32::from(e)),
    }
}

// Op 5: first, second, n, item.
fn coordinates_case(input: &mut impl Read, output: &mut impl Write, k: u64) -> io::Result<()> {
    let first = lines::inner::word(input)?;
    let second = lines::inner::word(input)?;
    let n = lines::inner::word(input)? as usize;
    let item = lines::inner::word(input)? as usize;
    let r = payload_order::coordinates_of(first, second, n, item);
    match r {
        Ok(at) => print_coordinates(output, k, at),
        Err(e) => print_refused(output, k, u32::from(e)),
    }
}

// Op 6: first, second, n, time, channel, component, repeat.
fn item_case(input: &mut impl Read, output: &mut impl Write, k: u64) -> io::Result<()> {
    let first = lines::inner::word(input)?;
    let second = lines::inner::word(input)?;
    let n = lines::inner::word(input)? as usize;
    let time = lines::inner::word(input)?;
    let channel = lines::inner::word(input)?;
    let component = lines::inner::word(input)?;
    let repeat = lines::inner::word(input)?;
    let at = Coordinates {
        time,
        channel,
        component,
        repeat,
    };
    let r = payload_order::item_at(first, second, n, at);
    match r {
        Ok(i) => print_accepted(output, k, b" item ", i as u64),
        Err(e) => print_refused(output, k, u32::from(e)),
    }
}

// One case by its op; an op that is none of these has no line.
fn run_case(input: &mut impl Read, output: &mut impl Write, op: u32, k: u64) -> io::Result<()> {
    if op == 1 {
        unpack_case(input, output, k)?;
    } else if op == 2 {
        pack_case(input, output, k)?;
    } else if op == 3 {
        signed_case(input, output, k)?;
    } else if op == 4 {
        needed_case(input, output, k)?;
    } else if op == 5 {
        coordinates_case(input, output, k)?;
    } else if op == 6 {
        item_case(input, output, k)?;
    }
    Ok(())
}

// The cases, numbered from 0, to the end of the input; at most 2 ^ 32 of them.
fn main(rt: HostRuntime) -> io::Result<()> {
    let mut input = rt.stdin();
    let mut output = rt.stdout();
    for k in 0..0x1_0000_0000 {
        let Some(op) = lines::inner::next_word(&mut input)? else {
            return Ok(());
        };
        run_case(&mut input, &mut output, op, k)?;
    }
    Ok(())
}
