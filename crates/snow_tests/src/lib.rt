//! Tests of the commands of `snow`, of what no clause says. They stand here and not beside the commands, since a
//! crate with tests is proved twice, and this one has nothing else.
#![tactic(auto)]

#[cfg(test)]
mod equal;
#[cfg(test)]
mod generated;
#[cfg(test)]
mod handed;
#[cfg(test)]
mod hostile;
#[cfg(test)]
mod meeting;
#[cfg(test)]
mod numbers;
#[cfg(test)]
mod seeds;
#[cfg(test)]
mod siblings;
#[cfg(test)]
mod tests;
#[cfg(test)]
mod together;
#[cfg(test)]
mod workers;
