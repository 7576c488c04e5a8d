ghost use Rattle.std.specs.Prelude.{◌≡◌, ℕ, ◌++◌, List, length, take, IfOk, OnOk};
ghost use Rattle.writing.specs.Written.{answer_line, Writes};
ghost use Rattle.request_writer.specs.Canonical.{request_line};
ghost use Rattle.text.specs.Fields.{lines};
ghost use Rattle.day_files.specs.Told.{Tells};
ghost use Rattle.day.specs.Day.{begun, day_of, ended, first_of, others_of, replies, reply};

use account_text::AccountText;
use day_files::{Stop, read_holds, read_roll};
use fields::{Answer, Refusal};
use layers::Hold;
use request_text::{Opening, read_opening, read_request};
use request_writer::write_request;
use requests::Request;
use std::alloc::{AllocError, Global};
use text::{Lines, next_line};
use writing::write_answer;

// The texts of a day, which are not compared.
#[derive(Clone, Copy)]
pub struct Files<'a> {
    pub accounts: &'a [u8],
    pub holds: &'a [u8],
    pub roll: &'a [u8],
    pub input: &'a [u8],
}

// How many bytes of a text count.
pub const COUNTED: usize = 65_536;

// How many bytes are enough for any line that is written.
const ROOM: usize = 1_135;

// Appends a line and the byte 10 that ends it.
fn push_line(out: &mut Vec<u8>, line: &[u8]) -> Result<(), AllocError>
    ensures { OnOk result (out.new.items ≡ out.old.items ++ ended line.now) }
{
    out.extend_from_slice(line)?;
    out.push(b'\n')?;
    Ok(())
}

// What can be written as a line. `ROOM` bytes are enough for it.
trait Line {
    ghost line: { Self → List ℕ };

    fn write(&self, buffer: &mut [u8]) -> Result<usize, Refusal>
        ensures { Writes (line self.now) 1135 buffer.old buffer.new result };
}

impl Line for Result<Answer, Refusal> {
    ghost line = { answer_line };

    fn write(&self, buffer: &mut [u8]) -> Result<usize, Refusal> {
        write_answer(buffer, *self)
    }
}

impl Line for Request {
    ghost line = { request_line };

    fn write(&self, buffer: &mut [u8]) -> Result<usize, Refusal> {
        write_request(buffer, self)
    }
}

// Appends what is written as a line, by way of a buffer: one for all replies, since to blank it costs as much as a short line.
fn push<L: Line>(out: &mut Vec<u8>, buffer: &mut [u8; ROOM], written: &L) -> Result<(), AllocError>
    ensures { OnOk result (out.new.items ≡ out.old.items ++ ended (L.line written.now)) }
{
    let Ok(n) = written.write(buffer) else {
        return unreachable();
    };
    push_line(out, &buffer[0..n])
}

// Appends the reply to one line.
fn push_reply(out: &mut Vec<u8>, buffer: &mut [u8; ROOM], line: &[u8]) -> Result<(), AllocError>
    ensures { OnOk result (out.new.items ≡ out.old.items ++ ended (reply line.now)) }
{
    match read_request(line) {
        Ok(request) => push(out, buffer, &request),
        Err(refusal) => push(out, buffer, &Err(refusal)),
    }
}

// Appends the replies to the lines of a text.
fn push_replies(out: &mut Vec<u8>, text: &[u8]) -> Result<(), AllocError>
    ensures { OnOk result (out.new.items ≡ out.old.items ++ replies (lines text.now)) }
{
    let mut buffer = [0; ROOM];
    for line in Lines::new(text) {
        push_reply(out, &mut buffer, line)?;
    }
    Ok(())
}

// The bytes of a text that count.
fn counted(text: &[u8]) -> &[u8]
    ensures { result.now ≡ take 65536 text.now }
{
    &text[..COUNTED.min(text.len())]
}

// The first line of a text and the text behind it; no line at all is an empty one.
fn first_line<'a>(text: &'a [u8]) -> (&'a [u8], &'a [u8])
    ensures first { result.0.now ≡ first_of (lines text.now) }
    ensures others { lines result.1.now ≡ others_of (lines text.now) }
{
    next_line(text).unwrap_or((text, text))
}

// Reads the files of accounts, holds and numbers and the first line, or tells the first fault.
fn begin(heap: Global, files: &Files, first: &[u8]) -> Result<Opening, Stop>
    ensures { Tells (λ opening. opening) (begun files.now.holds.now files.now.roll.now first.now) result }
{
    let mut register = Hold::new(AccountText::new(counted(files.accounts)));
    read_holds(&mut register, counted(files.holds))?;
    read_roll(heap, counted(files.roll))?;
    Ok(read_opening(first)?)
}

// What a day is answered with.
pub fn run(heap: Global, files: &Files) -> Result<Vec<u8>, AllocError>
    ensures { IfOk result (λ v. v.items ≡ day_of files.now.holds.now files.now.roll.now files.now.input.now) }
{
    let (first, rest) = first_line(counted(files.input));
    let mut out = Vec::new(heap);
    match begin(heap, files, first) {
        Ok(_) => push_replies(&mut out, rest)?,
        Err(Stop::Refused(refusal)) => push(&mut out, &mut [0; ROOM], &Err(refusal))?,
        Err(Stop::OutOfMemory(e)) => return Err(e),
    }
    Ok(out)
}
