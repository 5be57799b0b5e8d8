//! Tests of sessions, and of what carries them: pools, workspaces, sources, sinks and reports.
//!
//! Below it: above all `apl_session`, `apl_print` and `apl_pool`, which it reaches by public items alone.
//! Begin with `transcripts.rt`, which says how a session is written, and then `rows.rt`.
#![tactic(auto)]

#[cfg(test)]
mod devices;
#[cfg(test)]
mod doors;
#[cfg(test)]
mod failures;
#[cfg(test)]
mod gates;
#[cfg(test)]
mod pools;
#[cfg(test)]
mod refusals;
#[cfg(test)]
mod reports;
#[cfg(test)]
mod rows;
#[cfg(test)]
mod sizes;
#[cfg(test)]
mod transcripts;
