//! Write transactions at their coordinator and at their cohorts, in one data centre.
#![tactic(auto)]

mod adding;
mod applying;
mod block;
mod law;
mod ledger;
mod moving;
mod next;
mod open;
mod places;
mod slot;
mod status;
mod statuses;
mod steps;
mod transactions;
mod voters;

pub use law::{parts_move_on, transactions_stand, votes_are_counted};
pub use ledger::Ledger;
pub use next::stamp_of;
pub use open::{CohortPart, Led, Missing, Open, Origin, Remote, ReplicatedPart};
pub use transactions::Transactions;
pub use voters::Voters;
