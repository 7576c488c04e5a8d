// Lent tables, of which the first `count` rows are in use. Rows and count stay two parameters: the caller lends the rows, and the book keeps
// the counts, which may be any numbers.
ghost use Rattle.std.specs.Prelude.{◌≡◌, ◌+◌, ◌≤◌, true, length, take};
ghost use Rattle.keyed.specs.Lists.{is_some};
ghost use Rattle.keyed.specs.Rows.{find as found, rises_above, room, table, whole};
ghost use Rattle.rows.specs.InUse.{stands as standing};

use keyed::{Checked, Keyed, all_good, find, rises};

// Whether a table has its rows, no more than the limit, and each good.
#[tactic(auto, unfolding(keyed::specs::Rows::whole))]
pub fn is_whole<R: Checked>(rows: &[R], count: usize, limit: usize) -> bool
    ensures value { result ≡ whole limit R.good (table count rows.now) }
    ensures within { result ≡ true → count ≤ length rows.now }
    ensures few { result ≡ true → count ≤ limit }
{
    count <= limit && rows.get(..count).is_some_and(|used| all_good(used))
}

// Whether a table is whole and its keys rise.
#[tactic(auto, unfolding(crate::specs::InUse::stands))]
pub fn stands<R: Keyed + Checked>(rows: &[R], count: usize, limit: usize) -> bool
    ensures value { result ≡ standing limit R.key R.good (table count rows.now) }
    ensures within { result ≡ true → count ≤ length rows.now }
    ensures few { result ≡ true → count ≤ limit }
    ensures rising { result ≡ true → rises_above R.key 0 (take count rows.now) ≡ true }
{
    is_whole(rows, count, limit) && rises(&rows[0..count])
}

// Whether there is a row with this key.
#[tactic(auto, using(crate::proofs::Keys::is_there))]
pub fn has_key<R: Keyed>(rows: &[R], wanted: u64) -> bool
    ensures { result ≡ is_some (found R.key wanted rows.now) }
{
    find(rows, wanted).is_some()
}

// Whether that many more rows are free.
#[tactic(auto, unfolding(keyed::specs::Rows::room))]
pub fn has_room<R>(rows: &[R], count: usize, limit: usize, more: usize) -> bool
    ensures value { result ≡ room limit more (table count rows.now) }
    ensures fits { result ≡ true → (count + more ≤ length rows.now) × (count + more ≤ limit) }
{
    count
        .checked_add(more)
        .is_some_and(|needed| needed <= rows.len() && needed <= limit)
}
