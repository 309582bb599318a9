//! Devices that tell what passes: what the clauses of `cast_link` and `cast_pool` say of them.
#![tactic(auto)]

#[cfg(test)]
mod post;
#[cfg(test)]
mod wire;
