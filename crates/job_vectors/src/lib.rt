//! The worked examples with pins and bans, and jobs over books of each kind.
#![tactic(auto)]

#[cfg(test)]
mod jobs;
