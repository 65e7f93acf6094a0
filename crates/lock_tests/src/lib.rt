//! Tests of the lock and of soft reads, over a home value of their own.
#![tactic(auto)]

#[cfg(test)]
mod acts;
#[cfg(test)]
mod board;
#[cfg(test)]
mod clock;
#[cfg(test)]
mod count;
#[cfg(test)]
mod lanes;
#[cfg(test)]
mod reads;
#[cfg(test)]
mod scenes;
#[cfg(test)]
mod stage;
#[cfg(test)]
mod tests;
#[cfg(test)]
mod tickets;
#[cfg(test)]
mod writes;
