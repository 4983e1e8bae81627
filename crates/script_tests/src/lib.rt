//! Tests of lines and replies in text.
//!
//! They call what is public and say beside the proofs what no clause can: that known texts are read as known lines, that
//! others are none, and which text each reply has, worked by hand from the language.
#![tactic(auto)]

#[cfg(test)]
mod lines;
#[cfg(test)]
mod replies;
