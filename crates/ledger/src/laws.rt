// Each function carries a theorem in its contract.
ghost use Rattle.law.specs.Law.{BeginningLawful, EveryRunLawful};
ghost use Rattle.law.specs.Further.{NumberedChainStays, NeverBroken, NeverTooLong};

// An empty book is lawful.
pub fn beginning_lawful()
    ensures { BeginningLawful }
{}

// So is every run from one: any day, any table sizes, any numbers left, and any requests, each with its own register.
pub fn every_run_lawful()
    ensures { EveryRunLawful }
{}

// A numbered chain keeps its sides, its ties and its pairs until the closing.
pub fn numbered_chain_stays()
    ensures { NumberedChainStays }
{}

// In a run from an empty book no request is refused for a broken chain.
pub fn never_broken()
    ensures { NeverBroken }
{}

// An intermediation that makes one lawful chain of up to three trades is not refused for its length.
pub fn never_too_long()
    ensures { NeverTooLong }
{}
