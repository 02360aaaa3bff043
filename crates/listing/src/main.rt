// Plays the records on standard input and prints the listing, then the fault if there was one.
#![tactic(auto)]

ghost use Rattle.std.specs.Prelude.{◌≤◌, length, IfOk};

use anyhow::bail;
use records::play::{INPUT_LIMIT, play};
use report::list;
use std::io;
use std::io::{Read, Write};

// Room for the header, of 51 bytes, and 512 rows, of 47 at most.
const LISTING_ROOM: usize = 32768;

// Reads standard input until it ends or the buffer is full, and answers how much came.
// Each read asks for all that has room: where one read is one packet, `read_to_end` loses what it did not ask for.
fn read_input(rt: &HostRuntime, buffer: &mut [u8]) -> io::Result<usize>
    ensures fits_the_buffer { IfOk result (λ n. n ≤ length buffer.old) }
{
    let mut stdin = rt.stdin();
    let mut filled = 0;
    // each turn but the last reads a byte at least
    for _ in 0..buffer.len() {
        let read = stdin.read(&mut buffer[filled..])?;
        if read == 0 {
            break;
        }
        filled += read;
        if filled == buffer.len() {
            break;
        }
    }
    Ok(filled)
}

fn run(rt: &HostRuntime) -> anyhow::Result<()> {
    let mut input = vec![in rt.alloc(); 0u8; INPUT_LIMIT]?;
    let filled = read_input(rt, &mut input)?;
    let played = play(&input[..filled]);
    let mut text = vec![in rt.alloc(); 0u8; LISTING_ROOM]?;
    // in the program's own words, which `?` would not say
    let Ok(length) = list(played.book.rows(), &mut text) else {
        bail!("the listing does not fit");
    };
    rt.stdout().write_all(&text[..length])?;
    if let Some(fault) = played.fault {
        println!(rt; "{fault}")?;
    }
    Ok(())
}

fn main(rt: HostRuntime) -> anyhow::Result<()> {
    run(&rt)
}
