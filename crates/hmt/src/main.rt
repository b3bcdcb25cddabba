// The script program of section 7: standard input, run by the proved library, to standard output.
#![tactic(auto)]

ghost use Rattle.std.specs.Prelude.{◌≤◌, IfOk, length};

use std::io;
use std::io::{Read, Write};

// One byte more than a script may have, so that a longer one is told from the longest.
const MOST_INPUT: usize = 65537;

// Reads until the place is full or the input ends, and answers how many bytes came. A loop, since read_to_end needs the heap, and copy does
// not say how many bytes a place got.
fn read_input<R: Read>(reader: &mut R, place: &mut [u8]) -> io::Result<usize>
    ensures { IfOk result (λ n. n ≤ length place.new) }
{
    let mut done = 0;
    while done < place.len() {
        match reader.read(&mut place[done..])? {
            0 => break,
            more => done += more,
        }
    }
    Ok(done)
}

// A place for text. It comes from a function, since the check does not get through with millions of zeros in its sight.
fn zeros<const N: usize>() -> [u8; N] {
    [0; N]
}

// The script that is read is carried out, and its text written at once. What fails is told in words.
fn replay<R: Read>(reader: &mut R, rt: &impl Print) -> Result<(), &'static str> {
    let mut input: [u8; MOST_INPUT] = zeros();
    let n = read_input(reader, &mut input).map_err(|_| "hmt: standard input could not be read")?;
    let mut text: [u8; script::MOST_TEXT] = zeros();
    let printed = script::run(&input[..n], &mut text);
    io::writer(rt)
        .write_all(&text[..printed])
        .map_err(|_| "hmt: standard output could not be written")
}

fn main(rt: HostRuntime) {
    if let Err(words) = replay(&mut rt.stdin(), &rt) {
        let _ = rt.eprintln(words);
    }
}
