//! Tests of sums and seals (`cast_seal`) on what others have made.
#![tactic(auto)]

#[cfg(test)]
mod seals;
#[cfg(test)]
mod sums;
