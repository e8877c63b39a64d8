// Trials of plans and their texts: nothing but tests.
#![tactic(auto)]

#[cfg(test)]
mod fields;
#[cfg(test)]
mod lines;
#[cfg(test)]
mod looks;
#[cfg(test)]
mod own;
#[cfg(test)]
mod ranges;
#[cfg(test)]
mod room;
#[cfg(test)]
mod rows;
#[cfg(test)]
mod shut;
#[cfg(test)]
mod telling;
#[cfg(test)]
mod written;
