//! Tests with threads: calls on the shared workspace by two passes, scripts whose lanes and workers are held where they
//! are to meet, and the program; what comes out is compared whole, or judged by its transcript.
#![tactic(auto)]

#[cfg(test)]
mod beside;
#[cfg(test)]
mod changed;
#[cfg(test)]
mod crossing;
#[cfg(test)]
mod damaged;
#[cfg(test)]
mod drawn;
#[cfg(test)]
mod faults;
#[cfg(test)]
mod gate;
#[cfg(test)]
mod judging;
#[cfg(test)]
mod lanes;
#[cfg(test)]
mod misfits;
#[cfg(test)]
mod parts;
#[cfg(test)]
mod passes;
#[cfg(test)]
mod program;
#[cfg(test)]
mod running;
#[cfg(test)]
mod scenes;
#[cfg(test)]
mod sessions;
#[cfg(test)]
mod sharing;
#[cfg(test)]
mod stage;
#[cfg(test)]
mod tests;
#[cfg(test)]
mod told;
