// What rests on the meaning of a register alone holds over every stack of layers.
ghost use Rattle.std.specs.Prelude.{◌≡◌};
ghost use Rattle.layers.specs.Layers.{each, hold_account, halt_account};
ghost use Rattle.layers.specs.Stacks.{active, usable_by};
ghost use Rattle.register.specs.Meaning.{account_in, tied_in};

use crate::halt::Halt;
use crate::hold::Hold;
use fields::{Party, Status};
use register::Register;

// Whether the account with this code is listed, active and tied to this party.
pub fn usable<R: Register>(register: &R, code: u32, party: Party) -> bool
    ensures { result ≡ usable_by (R.accounts register.now) code party }
{
    register.account(code).is_some_and(|account| account.status == Status::Active
        && register.tied(code, party))
}

// The same of holds over halts.
pub fn usable_held_over_halted<R: Register>(holds: &Hold<Halt<R>>, code: u32, party: Party) -> bool
    ensures { result ≡ usable_by (each (hold_account holds.now.view.codes.items) (each (halt_account holds.now.below.view.kinds) (R.accounts holds.now.below.below))) code party }
{
    usable(holds, code, party)
}

// And of halts over holds, which show what holds over halts show.
#[tactic(auto, using(crate::proofs::Each::either_order))]
pub fn usable_halted_over_held<R: Register>(halts: &Halt<Hold<R>>, code: u32, party: Party) -> bool
    ensures value { result ≡ usable_by (each (halt_account halts.now.view.kinds) (each (hold_account halts.now.below.view.codes.items) (R.accounts halts.now.below.below))) code party }
    ensures alike { result ≡ usable_by (each (hold_account halts.now.below.view.codes.items) (each (halt_account halts.now.view.kinds) (R.accounts halts.now.below.below))) code party }
{
    usable(halts, code, party)
}
