//! Tests of what the clauses of the crates below leave open.
//!
//! - `queues`, `streams`, `texts`: parts of a domain, streams of programs, scripts. That a call
//!   succeeds where there is memory is seen where `cast_trials` and `cast_refusals` run.
//! - `schedules`: schedules over several sites that `cast_world` runs, and what was delivered.
//! - `workers`: the table that workers share. A worker that waits before or behind the lock keeps
//!   no other from its work. Each job is done once and counted, while the trace is trimmed.
#![tactic(auto)]

#[cfg(test)]
mod gate;
#[cfg(test)]
mod queues;
#[cfg(test)]
mod rows;
#[cfg(test)]
mod schedules;
#[cfg(test)]
mod streams;
#[cfg(test)]
mod texts;
#[cfg(test)]
mod workers;
