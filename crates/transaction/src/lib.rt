//! Transactions: a command reads and edits a tree through one value, which also notes what the
//! command looked at. It begins a `Transaction`, passes it to its steps as `&mut`, and ends it by
//! `outcome`. A step that can't continue returns a `Stop`, which `?` passes on. The links that
//! commands make are those of `link_at` and `relink_at` at one path, or of `WantedLinks`.
#![tactic(auto)]

mod edit;
mod rules;
mod stop;
mod transaction;
mod wanted;

pub use rules::{link_at, relink_at};
pub use stop::Stop;
pub use transaction::Transaction;
pub use wanted::WantedLinks;
