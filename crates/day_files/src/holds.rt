// holds.txt: an account code on each line.
ghost use Rattle.std.specs.Prelude.{◌≡◌};
ghost use Rattle.text.specs.Fields.{lines};
ghost use Rattle.day_files.specs.Files.{hold_line, hold_lines, left_with};

use fields::Refusal;
use fields::range::ACCOUNT;
use layers::Hold;
use text::{Lines, read_only};

// Holds the code on a line.
fn hold_line<R>(register: &mut Hold<R>, line: &[u8], place: usize) -> Result<(), Refusal>
    ensures codes { left_with result register.new.view.codes.items ≡ hold_line place register.old.view.codes.items line.now }
    ensures below { register.new.below ≡ register.old.below }
{
    let code = read_only(line, place, ACCOUNT)?;
    register
        .hold(code as u32)
        .map_err(|refusal| refusal.ground.at(place))
}

// Holds the code on each line of a text, or tells the first fault and its line, from 1.
pub fn read_holds<R>(register: &mut Hold<R>, text: &[u8]) -> Result<(), Refusal>
    ensures codes { left_with result register.new.view.codes.items ≡ hold_lines 1 register.old.view.codes.items (lines text.now) }
    ensures below { register.new.below ≡ register.old.below }
{
    for (i, line) in Lines::new(text).enumerate() {
        hold_line(register, line, i + 1)?;
    }
    Ok(())
}
