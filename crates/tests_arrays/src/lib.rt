//! Tests of arrays, of scalar functions of elements, of summaries, of printed values, and of what workers share: boards, deques and rooms.
//!
//! Below it: the crates of these, which it reaches by public items alone.
//! Begin with `notation.rt`, which says how a row of a table is written. The functions of arrays have their cases in `checks/sessions/`.
#![tactic(auto)]

#[cfg(test)]
mod arrays;
#[cfg(test)]
mod board;
#[cfg(test)]
mod deques;
#[cfg(test)]
mod elements;
#[cfg(test)]
mod filled;
#[cfg(test)]
mod laws;
#[cfg(test)]
mod meeting;
#[cfg(test)]
mod notation;
#[cfg(test)]
mod ones;
#[cfg(test)]
mod printed;
#[cfg(test)]
mod rooms;
#[cfg(test)]
mod rows;
#[cfg(test)]
mod summaries;
