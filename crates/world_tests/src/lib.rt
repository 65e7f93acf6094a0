//! Tests of the workspace and of the query engine: index data that come late, how often a question looks, shares, and
//! where a name is used and what comes from it.
#![tactic(auto)]

#[cfg(test)]
mod asked;
#[cfg(test)]
mod calls;
#[cfg(test)]
mod counted;
#[cfg(test)]
mod courses;
#[cfg(test)]
mod kinds;
#[cfg(test)]
mod late;
#[cfg(test)]
mod looks;
#[cfg(test)]
mod reach;
#[cfg(test)]
mod tests;
#[cfg(test)]
mod yielding;
