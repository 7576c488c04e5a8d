// Looking through rows.
ghost use Rattle.std.specs.Prelude.{◌≡◌, ℕ, ◌≤◌, length, take};
ghost use Rattle.keyed.specs.Fronts.{rising_front, ends_early};
ghost use Rattle.keyed.specs.Lists.{all};
ghost use Rattle.keyed.specs.Places.{place_from, below, Found};
ghost use Rattle.keyed.specs.Rows.{rises_above};

use crate::row::{Checked, Keyed};
use fields::{Ground, Refusal};

// The place of the row with this key, or nothing. The rows are looked at from the front, since tables that a caller lends need not rise.
pub fn find<R: Keyed>(rows: &[R], wanted: u64) -> Option<usize>
    ensures place { result ≡ place_from R.key wanted 0 rows.now }
    ensures found { Found R.key wanted rows.now result }
{
    rows.iter().position(|row| row.key_number() == wanted)
}

// The place for a row with this key: how many rows stand before the first one whose key is not below it, also where the keys do not rise.
pub fn place<R: Keyed>(rows: &[R], wanted: u64) -> usize
    ensures value { result ≡ below R.key wanted rows.now }
    ensures within { result ≤ length rows.now }
{
    rows.iter()
        .position(|row| row.key_number() >= wanted)
        .unwrap_or(rows.len())
}

// Whether each key is above the one before it, the first above 0.
pub fn rises<R: Keyed>(rows: &[R]) -> bool
    ensures { result ≡ rises_above R.key 0 rows.now }
{
    let mut last = 0;
    for row in rows {
        let number = row.key_number();
        if number <= last {
            return false;
        }
        last = number;
    }
    true
}

// Whether each row is good.
pub fn all_good<R: Checked>(rows: &[R]) -> bool
    ensures { result ≡ all R.good rows.now }
{
    rows.iter().all(|row| row.is_good())
}

// The rows up to the last one before the keys stop rising, the first above 0, or a row is not good;
// and, where they are not all, that the table ends early, with the place of the first bad row from 1. Both are told, and no
// `Result` of the rows, since the rows before the fault count all the same.
#[tactic(auto, using(crate::proofs::Steps::front_rows, crate::proofs::Steps::front_sound))]
pub fn sound_part<'a, R: Keyed + Checked>(rows: &'a [R]) -> (&'a [R], Result<(), Refusal>)
    ensures rows { result.0.now ≡ rising_front R.key R.good 0 rows.now }
    ensures sound { rising_front R.key R.good 0 result.0.now ≡ result.0.now }
    ensures fault { result.1 ≡ ends_early (length (rising_front R.key R.good 0 rows.now)) (length rows.now) }
{
    let good = sound_rows(rows);
    (&rows[0..good], whole(good, rows.len()))
}

// Refuses a table that ends early.
fn whole(good: usize, rows: usize) -> Result<(), Refusal>
    ensures { result ≡ ends_early good rows }
{
    if good < rows {
        return Err(Ground::EndsEarly.at(good + 1));
    }
    Ok(())
}

// How many rows stand before the keys stop rising, the first above 0, or a row is not good.
fn sound_rows<R: Keyed + Checked>(rows: &[R]) -> usize
    ensures value { result ≡ length (rising_front R.key R.good 0 rows.now) }
    ensures within { result ≤ length rows.now }
{
    let mut last = 0;
    for (i, row) in rows.iter().enumerate() {
        let number = row.key_number();
        if number <= last || !row.is_good() {
            return i;
        }
        last = number;
    }
    rows.len()
}
