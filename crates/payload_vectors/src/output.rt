// Buffers as they are before a call, and lines on standard output.
ghost use Rattle.std.specs.Prelude.{◌≡◌, ◌≤◌, length};

use payload_order::Coordinates;
use std::io;
use std::io::Write;

// The pattern that a buffer of items is filled with beforehand.
pub fn blank_items() -> [u64; 4096]
    ensures { 4096 ≡ length result }
{
    [0xA5A5_A5A5_A5A5_A5A5; 4096]
}

// The same of event tags.
pub fn blank_events() -> [u8; 4096]
    ensures { 4096 ≡ length result }
{
    [0xA5; 4096]
}

// The same of channel tags.
pub fn blank_channels() -> [u16; 4096]
    ensures { 4096 ≡ length result }
{
    [0xA5A5; 4096]
}

// The same of words.
pub fn blank_words() -> [u32; 4096]
    ensures { 4096 ≡ length result }
{
    [0xA5A5_A5A5; 4096]
}

// The case's number, a text and a number, as a line.
pub fn print_accepted(output: &mut impl Write, k: u64, text: &[u8], n: u64) -> io::Result<()> {
    lines::inner::number(output, k)?;
    lines::inner::text(output, text)?;
    lines::inner::number(output, n)?;
    lines::inner::text(output, b"\n")
}

// The case's number and the number of its refusal, as a line.
pub fn print_refused(output: &mut impl Write, k: u64, e: u32) -> io::Result<()> {
    print_accepted(output, k, b" refused ", e as u64)
}

// The case's number and its signed value, as a line.
pub fn print_signed(output: &mut impl Write, k: u64, v: i64) -> io::Result<()> {
    lines::inner::number(output, k)?;
    lines::inner::text(output, b" value ")?;
    lines::inner::signed(output, v)?;
    lines::inner::text(output, b"\n")
}

// The case's number and the coordinates of its item, as a line.
pub fn print_coordinates(output: &mut impl Write, k: u64, at: Coordinates) -> io::Result<()> {
    lines::inner::number(output, k)?;
    lines::inner::text(output, b" time ")?;
    lines::inner::number(output, at.time as u64)?;
    lines::inner::text(output, b" channel ")?;
    lines::inner::number(output, at.channel as u64)?;
    lines::inner::text(output, b" component ")?;
    lines::inner::number(output, at.component as u64)?;
    lines::inner::text(output, b" repeat ")?;
    lines::inner::number(output, at.repeat as u64)?;
    lines::inner::text(output, b"\n")
}

// A number, after a space.
fn print_number(output: &mut impl Write, n: u64) -> io::Result<()> {
    lines::inner::text(output, b" ")?;
    lines::inner::number(output, n)
}

// An event tag as a wider number.
fn of_event(x: u8) -> u64 {
    x as u64
}

// A channel tag as a wider number.
fn of_channel(x: u16) -> u64 {
    x as u64
}

// A word as a wider number.
fn of_word(x: u32) -> u64 {
    x as u64
}

// The first n items, as a line.
pub fn print_items(output: &mut impl Write, n: usize, items: &[u64; 4096]) -> io::Result<()>
    requires { n ≤ 4096 }
{
    lines::inner::text(output, b"  items")?;
    for item in &items[..n] {
        print_number(output, *item)?;
    }
    lines::inner::text(output, b"\n")
}

// The first n event tags, as a line.
pub fn print_events(output: &mut impl Write, n: usize, events: &[u8; 4096]) -> io::Result<()>
    requires { n ≤ 4096 }
{
    lines::inner::text(output, b"  events")?;
    for event in &events[..n] {
        print_number(output, of_event(*event))?;
    }
    lines::inner::text(output, b"\n")
}

// The first n channel tags, as a line.
pub fn print_channels(output: &mut impl Write, n: usize, channels: &[u16; 4096]) -> io::Result<()>
    requires { n ≤ 4096 }
{
    lines::inner::text(output, b"  channels")?;
    for channel in &channels[..n] {
        print_number(output, of_channel(*channel))?;
    }
    lines::inner::text(output, b"\n")
}

// The first n words, as a line.
pub fn print_words(output: &mut impl Write, n: usize, words: &[u32; 4096]) -> io::Result<()>
    requires { n ≤ 4096 }
{
    lines::inner::text(output, b"  words")?;
    for word in &words[..n] {
        print_number(output, of_word(*word))?;
    }
    lines::inner::text(output, b"\n")
}
