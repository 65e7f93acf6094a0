//! Tests of the queue of hints: the limit of 1,024 hints, and threads that put and take at once.
#![tactic(auto)]

#[cfg(test)]
mod filling;
#[cfg(test)]
mod parties;
#[cfg(test)]
mod tests;
