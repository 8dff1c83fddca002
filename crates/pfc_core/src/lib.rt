//! The core of one opening of one file: which blocks are in flight or in memory, who waits for them, and the log of it.
#![tactic(auto)]

mod access;
mod file;
mod held;
mod leave;
mod line;
mod loan;
mod look;
mod sets;
mod shelf;
mod slot;
mod tag;
mod token;

pub use file::{FileCore, Retired};
pub use leave::Leave;
pub use line::{Flight, Line};
pub use loan::{Did, Loan, NoLoan, Turn, TurnRefusal};
pub use look::Look;
pub use token::{Decision, Job, OnDisk, Pin, Reading, Stay, Strayed, Ticket, Twin};
