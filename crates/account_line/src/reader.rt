// Reading a line.
ghost use Rattle.std.specs.Prelude.{◌≡◌};
ghost use Rattle.account_line.specs.Line.{account as accountIn, behind_code};
ghost use Rattle.text.specs.Cuts.{left};

use accounts::AccountRow;
use accounts::row::TIES;
use fields::range::{ACCOUNT, DAY};
use fields::{Account, Party, Refusal};
use text::{Group, read_as, read_end, read_first, read_into, read_u32};

// The account that a line without its end says, or the first fault in it.
pub fn read_account(line: &[u8]) -> Result<AccountRow, Refusal>
    ensures { result ≡ accountIn line.now }
{
    let (code, rest) = read_first(line, 1, ACCOUNT)?;
    read_behind(code as u32, rest)
}

// type,status,day,markets,n and n ties
fn read_behind(code: u32, rest: &[u8]) -> Result<AccountRow, Refusal>
    ensures { result ≡ behind_code code (left rest.now) }
{
    let (class, rest) = read_as(rest, 2)?;
    let (status, rest) = read_as(rest, 3)?;
    let (day, rest) = read_u32(rest, 4, DAY)?;
    let (markets, rest) = read_as(rest, 5)?;
    let (count, rest) = read_u32(rest, 6, TIES)?;
    let tie_count = count as usize;
    let mut ties = [Party::default(); 4];
    let rest = read_into(rest, 7, &mut ties[..tie_count])?;
    read_end(rest, 7 + 2 * tie_count)?;
    let account = Account {
        code,
        class,
        status,
        day,
        markets,
    };
    Ok(AccountRow {
        account,
        tie_count,
        ties,
    })
}
