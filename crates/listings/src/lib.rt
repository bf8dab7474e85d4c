// The listing as a program: a list of lines of one kind from a reader, an answer to each to a writer. What is written, and how long an input may be,
// is `listing_text`'s; here the text is handed over and the listing written, a buffer at a time.
#![tactic(auto)]

ghost use Rattle.std.specs.Prelude.{◌≡◌, ◌++◌, ℕ, List, ◌<◌, length, take, OnOk, IfOk, OnErr};
ghost use Rattle.std.specs.Io.{ReadsAtMost, WritesAtMost};
ghost use Rattle.std.specs.Io.KnownBytes.{ReadConsumes, WriteAppends, Appends, Consumes, IsAtEnd};
ghost use Rattle.listing_text.specs.Steps.{lines_of_kind, Allowed};
ghost use Rattle.listings.specs.Answered.{Written, Begun, Answered, Stopped};

use listing_text::Kind;
use std::io;
use std::io::{ErrorKind, Read, Write};

// One write, tried again where a signal cut it short.
fn write_some<W: Write>(output: &mut W, bytes: &[u8]) -> io::Result<usize>
    ensures bound { WritesAtMost result bytes.now }
    ensures bytes { WriteAppends (W.contents output.old) (W.contents output.new) result bytes.now }
{
    for _ in 0..u64::MAX {
        match output.write(bytes) {
            Ok(n) => return Ok(n),
            Err(e) => {
                if e.kind() != ErrorKind::Interrupted {
                    return Err(e);
                }
            }
        }
    }
    output.write(bytes)
}

// Writes all of the bytes, or fails behind some of them.
fn write_full<W: Write>(output: &mut W, bytes: &[u8]) -> io::Result<()>
    ensures all { OnOk result (Appends (W.contents output.old) (W.contents output.new) bytes.now) }
    ensures some { OnErr result ((done rest : List ℕ) × (bytes.now ≡ done ++ rest) × Appends (W.contents output.old) (W.contents output.new) done) }
{
    let mut rest = bytes;
    while !rest.is_empty() {
        let n = write_some(output, rest)?;
        if n == 0 {
            return Err(io::Error::from(ErrorKind::WriteZero));
        }
        rest = &rest[n..];
    }
    Ok(())
}

// A line of the listing, and the totals too, have less than 64 bytes, so no listing has 64 * 65,536.
fn list<W: Write>(kind: Kind, text: &[u8], output: &mut W) -> io::Result<()>
    requires { Allowed kind }
    ensures all { OnOk result (Written (lines_of_kind kind).format text.now (W.contents output.old) (W.contents output.new)) }
    ensures some { OnErr result (Begun (lines_of_kind kind).format text.now (W.contents output.old) (W.contents output.new)) }
{
    let mut piece = [0u8; 65536];
    for i in 0..64 {
        let n = listing_text::list_kind(kind, text, 65536 * i, &mut piece);
        write_full(output, &piece[..n])?;
        if n < 65536 {
            return Ok(());
        }
    }
    Ok(())
}

// One read, tried again where a signal cut it short.
fn read_some<R: Read>(input: &mut R, room: &mut [u8]) -> io::Result<usize>
    ensures bound { ReadsAtMost result room.new }
    ensures bytes { ReadConsumes (R.remaining input.old) (R.remaining input.new) result room.new }
{
    for _ in 0..u64::MAX {
        match input.read(room) {
            Ok(n) => return Ok(n),
            Err(e) => {
                if e.kind() != ErrorKind::Interrupted {
                    return Err(e);
                }
            }
        }
    }
    input.read(room)
}

// Reads until the room is full or the input ends; how many bytes that is.
fn read_full<R: Read>(input: &mut R, room: &mut [u8]) -> io::Result<usize>
    ensures bound { ReadsAtMost result room.new }
    ensures bytes { IfOk result (λ n. Consumes (R.remaining input.old) (R.remaining input.new) (take n room.new)) }
    ensures some { OnErr result ((bs : List ℕ) × Consumes (R.remaining input.old) (R.remaining input.new) bs) }
    ensures end { IfOk result (λ n. n < length room.new → IsAtEnd (R.remaining input.new)) }
{
    let mut done = 0;
    while done < room.len() {
        let n = read_some(input, &mut room[done..])?;
        if n == 0 {
            return Ok(done);
        }
        done += n;
    }
    Ok(done)
}

// One byte more than the longest input is read, so that a longer one is told.
pub fn run<R: Read, W: Write>(kind: Kind, input: &mut R, output: &mut W) -> io::Result<()>
    requires { Allowed kind }
    ensures all { OnOk result (Answered (lines_of_kind kind).format (R.remaining input.old) (R.remaining input.new) (W.contents output.old) (W.contents output.new)) }
    ensures some { OnErr result (Stopped (lines_of_kind kind).format (R.remaining input.old) (R.remaining input.new) (W.contents output.old) (W.contents output.new)) }
{
    let mut text = [0u8; 65537];
    let n = read_full(input, &mut text)?;
    list(kind, &text[..n], output)
}
