// What is known of an account.

// The account types of the market. SI and IN are intermediation accounts.
#[derive(Clone, Copy, Debug, PartialEq, Eq)]
pub enum AccountType {
    SL,
    SI,
    PO,
    IN,
    C1,
    C2,
    EM,
    RT,
}

#[derive(Clone, Copy, Debug, PartialEq, Eq)]
pub enum Status {
    Active,
    Blocked,
}

// A set of kinds: those that an account may trade.
#[derive(Clone, Copy, Debug, PartialEq, Eq)]
pub struct Markets {
    pub selic: bool,
    pub deposited: bool,
    pub registered: bool,
}

// A participant with an offeror: who stands on a side of a trade, or whom an account is tied to.
#[derive(Clone, Copy, Debug, Default, PartialEq, Eq)]
pub struct Party {
    pub participant: u32,
    pub offeror: u32,
}

// An account without its ties; `class` is its type, `day` the day on which it was registered.
#[derive(Clone, Copy, Debug, PartialEq, Eq)]
pub struct Account {
    pub code: u32,
    pub class: AccountType,
    pub status: Status,
    pub day: u32,
    pub markets: Markets,
}
