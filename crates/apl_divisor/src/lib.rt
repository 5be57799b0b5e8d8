//! Division of many places by one divisor.
//!
//! Below it: `apl_pool`, of which it has the limit of places.
//! Begin with `divisor.rt`.
#![tactic(auto)]

mod divisor;

pub use divisor::Divisor;
