// Calls of the crates below: with answers worked out by hand, at each limit, and one past it.
#![tactic(auto)]

#[cfg(test)]
mod agenda;
#[cfg(test)]
mod chains;
#[cfg(test)]
mod engine;
#[cfg(test)]
mod facts;
#[cfg(test)]
mod hitting;
#[cfg(test)]
mod inferences;
#[cfg(test)]
mod sets;
#[cfg(test)]
mod standing;
#[cfg(test)]
mod streams;
#[cfg(test)]
mod words;
