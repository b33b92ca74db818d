// Tests of the library crates on examples and edges.
#![tactic(auto)]

#[cfg(test)]
mod bytes;
#[cfg(test)]
mod memories;
#[cfg(test)]
mod opens;
#[cfg(test)]
mod reports;
#[cfg(test)]
mod words;
#[cfg(test)]
mod writes;
