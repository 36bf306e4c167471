// Inner: calls that only the comparison makes (`oracle/beside`), with the C calling convention: single numbers, the reader of a stream, and
// the lines of `shots`. They stand in an archive of their own, which no user links.
#![tactic(auto)]

pub mod lines;
pub mod reading;
pub mod single;
mod words;
