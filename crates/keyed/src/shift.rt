// Rows put in and taken out; those above them move by one.
ghost use Rattle.std.specs.Prelude.{◌≡◌, ℕ, ◌+◌, ◌-◌, ◌<◌, ◌≤◌, ◌++◌, length, take, drop};
ghost use Rattle.keyed.specs.Places.{At, below, put_in, without};
ghost use Rattle.keyed.specs.Rows.{entered, table, entered_in, removed_in};

use crate::row::Keyed;
use crate::scan::place;

// Enters a row at the place of its key.
pub fn enter<R: Keyed + Copy>(rows: &mut [R], count: usize, row: R)
    requires { count < length rows.old }
    ensures rows { take (count + 1) rows.new ≡ entered R.key row (take count rows.old) }
    ensures table { table (count + 1) rows.new ≡ entered_in R.key row (table count rows.old) }
    ensures beyond { drop (count + 1) rows.new ≡ drop (count + 1) rows.old }
{
    let at = place(&rows[0..count], row.key_number());
    open_at(rows, count, at, row);
}

// Puts a row in at a place; where that is the place of its key, the row is entered.
#[tactic(auto, using(crate::proofs::Shifts::open_at, crate::proofs::Shifts::enter_rest, crate::proofs::Shifts::enter_table))]
fn open_at<R: Drop>(rows: &mut [R], count: usize, at: usize, row: R)
    requires { (at ≤ count) × (count < length rows.old) }
    ensures after { rows.new ≡ put_in at row (take count rows.old) ++ drop (count + 1) rows.old }
    ensures rows { (key : R → ℕ) → at ≡ below key (key row) (take count rows.old) → take (count + 1) rows.new ≡ entered key row (take count rows.old) }
    ensures table { (key : R → ℕ) → at ≡ below key (key row) (take count rows.old) → table (count + 1) rows.new ≡ entered_in key row (table count rows.old) }
    ensures beyond { drop (count + 1) rows.new ≡ drop (count + 1) rows.old }
{
    rows[count] = row;
    rows[at..count + 1].rotate_right(1);
}

// Takes the row at `at` out; it stands behind the others then.
#[tactic(auto, using(crate::proofs::Shifts::close_at, crate::proofs::Shifts::remove_rest, crate::proofs::Shifts::remove_rows))]
pub fn remove<R>(rows: &mut [R], count: usize, at: usize)
    requires { (at < count) × (count ≤ length rows.old) }
    ensures after { rows.new ≡ without at (take count rows.old) ++ (take 1 (drop at rows.old) ++ drop count rows.old) }
    ensures rows { take (count - 1) rows.new ≡ without at (take count rows.old) }
    ensures table { (key : R → ℕ) (k : ℕ) → At key k (take count rows.old) at → table (count - 1) rows.new ≡ removed_in key k (table count rows.old) }
    ensures beyond { drop count rows.new ≡ drop count rows.old }
{
    rows[at..count].rotate_left(1);
}
