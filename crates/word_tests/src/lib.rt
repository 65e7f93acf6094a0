//! Tests of `command_line` and `demo`: what words ask for, and the script of a seed.
#![tactic(auto)]

#[cfg(test)]
mod scripts;
#[cfg(test)]
mod tables;
#[cfg(test)]
mod words;
