// Schemes of levels: the trait with its laws, and three schemes.
#![tactic(auto)]

mod chain;
mod pair;
mod parties;
mod scheme;

pub use chain::Chain;
pub use pair::Pair;
pub use parties::Parties;
pub use scheme::{Scheme, order_determines_scheme};
