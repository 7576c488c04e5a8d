// roll.txt: a number on each line, rising.
ghost use Rattle.std.specs.Prelude.{◌≡◌, vec_items};
ghost use Rattle.text.specs.Fields.{lines};
ghost use Rattle.day_files.specs.Files.{roll_line, roll_lines};
ghost use Rattle.day_files.specs.Told.{Tells};

use crate::stop::Stop;
use fields::range::ISSUED;
use fields::{Ground, Refusal};
use std::alloc::Global;
use text::{Lines, read_only};

// The number on a line, which has to rise above the last.
fn read_line(line: &[u8], place: usize, last: u64) -> Result<u64, Refusal>
    ensures { result ≡ roll_line place last line.now }
{
    let number = read_only(line, place, ISSUED)?;
    if number <= last {
        return Err(Ground::EndsEarly.at(place));
    }
    Ok(number)
}

// The numbers on the lines of a text, or the first fault and its line, from 1.
pub fn read_roll(heap: Global, text: &[u8]) -> Result<Vec<u64>, Stop>
    ensures { Tells vec_items (roll_lines 1 0 (lines text.now)) result }
{
    let mut numbers = Vec::new(heap);
    let mut last = 0;
    for (i, line) in Lines::new(text).enumerate() {
        last = read_line(line, i + 1, last)?;
        numbers.push(last)?;
    }
    Ok(numbers)
}
