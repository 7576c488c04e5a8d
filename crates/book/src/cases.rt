// The definitions are seen to compute.
ghost use Rattle.book.specs.Cases.{CasesHold, Foreign};

// The worked day and the edges come out as they should.
#[tactic(auto, using(crate::proofs::Computed::cases_hold))]
pub fn cases_hold()
    ensures { CasesHold }
{}

// So do the answers to requests over tables of another book.
#[tactic(auto, using(crate::proofs::Computed::foreign))]
pub fn foreign_tables()
    ensures { Foreign }
{}
