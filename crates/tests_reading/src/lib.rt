//! Tests of what lines read as: fronts, tokens, programs, commands and carets. Others are of the words of the command line.
//!
//! Below it: `apl_tokens`, `apl_grammar`, `apl_syntax` and `apl_options`, which it reaches by public items alone.
//! Begin with `tables.rt`, which says how a row of a table is written, and then `lines.rt`.
#![tactic(auto)]

#[cfg(test)]
mod lexing;
#[cfg(test)]
mod lines;
#[cfg(test)]
mod options;
#[cfg(test)]
mod programs;
#[cfg(test)]
mod recogniser;
#[cfg(test)]
mod short_lines;
#[cfg(test)]
mod tables;
