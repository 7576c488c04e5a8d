// An account line: code,type,status,day,markets,n and then n ties as participant,offeror.
#![tactic(auto)]

pub mod reader;

pub use reader::read_account;
