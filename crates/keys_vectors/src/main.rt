// Writes a line for each of the messages that the rules below make: its length, and the two words of its key. The file stdout
// has what Rust's standard hasher makes of the same messages (tests/keys).
#![tactic(auto)]

ghost use Rattle.std.specs.Prelude.{◌≡◌, ◌≤◌, length};

use std::io;

// The line of one message.
fn line(rt: &impl Print, message: &[u8]) -> io::Result<()> {
    let key = keys::key_of(message);
    let length = message.len();
    let first = key.0;
    let second = key.1;
    println!(rt; "{length} {first} {second}")
}

// The lines of the first n bytes of text, for each n from least to most.
fn lines(rt: &impl Print, text: &[u8], least: usize, most: usize) -> io::Result<()>
    requires { most ≤ length text.now }
{
    for n in least..=most {
        line(rt, &text[..n])?;
    }
    Ok(())
}

// Byte i becomes (i * times + plus) % 256.
fn count(text: &mut [u8], times: usize, plus: usize)
    requires { (length text.old ≤ 65536) × (times ≤ 255) × (plus ≤ 255) }
{
    for (i, byte) in text.iter_mut().enumerate() {
        *byte = ((i * times + plus) % 256) as u8;
    }
}

// The number after x in xorshift64, with shifts 13, 7, 17.
fn next(x: u64) -> u64 {
    let a = x ^ (x << 13);
    let b = a ^ (a >> 7);
    b ^ (b << 17)
}

// Each of the first n bytes becomes the next number after x, modulo 256; answers the last number.
fn random(text: &mut [u8], n: usize, x: u64) -> u64
    requires { n ≤ length text.old }
{
    let mut y = x;
    for byte in &mut text[..n] {
        y = next(y);
        *byte = (y % 256) as u8;
    }
    y
}

// The lines of twenty messages out of xorshift64 from seed 1: the next number modulo 1,000 is a message's length, then come its
// bytes.
fn random_lines(rt: &impl Print, text: &mut [u8]) -> io::Result<()>
    requires { 1000 ≤ length text.old }
{
    let mut x: u64 = 1;
    for _ in 0..20 {
        x = next(x);
        let n = (x % 1000) as usize;
        x = random(text, n, x);
        line(rt, &text[..n])?;
    }
    Ok(())
}

fn run(rt: &impl Print, text: &mut [u8]) -> io::Result<()>
    requires { length text.old ≡ 65536 }
{
    count(text, 1, 0);
    lines(rt, text, 0, 64)?;
    count(text, 7, 3);
    lines(rt, text, 254, 257)?;
    lines(rt, text, 65535, 65536)?;
    random_lines(rt, text)
}

fn main(rt: HostRuntime) -> io::Result<()> {
    let mut text = [0u8; 65536];
    run(&rt, &mut text)
}
