// Accounts on hold.
ghost use Rattle.std.specs.Prelude.{◌≡◌, ◌≤◌, ℕ, true, false, List, [], length, refl, IfErr, MatchResult, OnErr};
ghost use Rattle.keyed.specs.Places.{below};
ghost use Rattle.layers.specs.Codes.{held as is_held, rising, hold_codes, hold_answer, release_codes, release_answer};
ghost use Rattle.layers.specs.Layers.{hold_account};

use crate::layer::{Layer, View};
use arrayvec::ArrayVec;
use fields::range::ACCOUNT;
use fields::{Account, Ground, Refusal, Status};

pub const MOST_HOLDS: usize = 64;

// Shows the accounts whose codes it keeps as blocked.
pub type Hold<R> = Layer<R, Held>;

// The codes of the accounts on hold, in rising order.
#[derive(Drop)]
pub struct Held {
    codes: ArrayVec<u32, MOST_HOLDS>,
    ghost few: { length codes.items ≤ 64 },
    ghost rise: { rising codes.items ≡ true },
}

impl<R> Hold<R> {
    // A layer that holds nothing yet.
    pub fn new(below: R) -> Self
        ensures { (result.below ≡ below) × (result.view.codes.items ≡ []) }
    {
        Layer {
            below,
            view: Held::new(),
        }
    }

    // Whether a code is held.
    pub fn holds(&self, code: u32) -> bool
        ensures { result ≡ is_held code self.now.view.codes.items }
    {
        self.view.has(code)
    }

    // The codes that are held, in rising order.
    pub fn codes(&self) -> &[u32]
        ensures value { result.now ≡ self.now.view.codes.items }
        ensures few { length self.now.view.codes.items ≤ 64 }
        ensures rise { rising self.now.view.codes.items ≡ true }
    {
        self.view.as_slice()
    }

    // Holds a code; one that is held already is held once.
    pub fn hold(&mut self, code: u32) -> Result<(), Refusal>
        ensures answer { result ≡ hold_answer code self.old.view.codes.items }
        ensures codes { self.new.view.codes.items ≡ hold_codes code self.old.view.codes.items }
        ensures below { self.new.below ≡ self.old.below }
        ensures same { OnErr result (self.new ≡ self.old) }
    {
        self.view.enter(code)
    }

    // Releases a code; one that is not held is released too.
    pub fn release(&mut self, code: u32) -> Result<(), Refusal>
        ensures answer { result ≡ release_answer code }
        ensures codes { self.new.view.codes.items ≡ release_codes code self.old.view.codes.items }
        ensures below { self.new.below ≡ self.old.below }
        ensures same { OnErr result (self.new ≡ self.old) }
    {
        self.view.take_out(code)
    }
}

impl Held {
    fn new() -> Self
        ensures { result.codes.items ≡ [] }
    {
        Held {
            codes: ArrayVec::new(),
        }
    }

    fn as_slice(&self) -> &[u32]
        ensures value { result.now ≡ self.now.codes.items }
        ensures few { length self.now.codes.items ≤ 64 }
        ensures rise { rising self.now.codes.items ≡ true }
    {
        self.codes.as_slice()
    }

    // Whether a code is there, or its place.
    fn seek(&self, code: u32) -> Result<usize, usize>
        ensures place { MatchResult result (λ _. is_held code self.now.codes.items ≡ true) (λ at. (is_held code self.now.codes.items ≡ false) × (at ≡ below (λ c. c) code self.now.codes.items)) }
        ensures within { IfErr result (λ at. at ≤ length self.now.codes.items) }
    {
        self.codes.as_slice().binary_search(&code)
    }

    fn has(&self, code: u32) -> bool
        ensures { result ≡ is_held code self.now.codes.items }
    {
        self.seek(code).is_ok()
    }

    #[tactic(auto, using(crate::proofs::Holding::entered_at, crate::proofs::Holding::entered_rise))]
    fn enter(&mut self, code: u32) -> Result<(), Refusal>
        ensures answer { result ≡ hold_answer code self.old.codes.items }
        ensures codes { self.new.codes.items ≡ hold_codes code self.old.codes.items }
        ensures same { OnErr result (self.new ≡ self.old) }
    {
        ACCOUNT.test(code as u64, 1)?;
        let Err(at) = self.seek(code) else {
            return Ok(());
        };
        if self.codes.is_full() {
            return Err(Ground::HoldsFull.at(0));
        }
        self.codes.insert(at, code);
        Ok(())
    }

    #[tactic(auto, using(crate::proofs::Holding::those_retained, crate::proofs::Holding::retained_rise))]
    fn take_out(&mut self, code: u32) -> Result<(), Refusal>
        ensures answer { result ≡ release_answer code }
        ensures codes { self.new.codes.items ≡ release_codes code self.old.codes.items }
        ensures same { OnErr result (self.new ≡ self.old) }
    {
        ACCOUNT.test(code as u64, 1)?;
        self.codes.retain(|held| *held != code);
        Ok(())
    }
}

impl View for Held {
    ghost shows = { λ h. hold_account h.codes.items };

    ghost keeps_code = { λ _ _. refl };

    fn show(&self, mut account: Account) -> Account {
        if self.has(account.code) {
            account.status = Status::Blocked;
        }
        account
    }
}
