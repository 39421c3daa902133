//! The worked examples and the limits of rule files and box lists, run through the calls that the programs make.
#![tactic(auto)]

#[cfg(test)]
mod box_lists;
#[cfg(test)]
mod cases;
#[cfg(test)]
mod limits;
#[cfg(test)]
mod small;
#[cfg(test)]
mod storage;
#[cfg(test)]
mod written;
