// Sessions over memory: with reads and writes that fail, in orders of one's own, and against the plain answers; and what
// the checker says of derivations.
#![tactic(auto)]

#[cfg(test)]
mod circuits;
#[cfg(test)]
mod derivations;
#[cfg(test)]
mod failing_streams;
#[cfg(test)]
mod orders;
#[cfg(test)]
mod plain_probe;
#[cfg(test)]
mod plain_rows;
#[cfg(test)]
mod plain_sessions;
#[cfg(test)]
mod presents;
#[cfg(test)]
mod running;
#[cfg(test)]
mod words;
