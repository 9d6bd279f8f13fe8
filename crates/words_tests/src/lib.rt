//! Tests of the store of words at its edges.
#![tactic(auto)]

#[cfg(test)]
mod cuts;
#[cfg(test)]
mod filled;
#[cfg(test)]
mod places;
#[cfg(test)]
mod sizes;
