//! Tests that cross crates and that no row of `aux_rows` can reach. They are no part of the server.
#![tactic(auto)]

#[cfg(test)]
mod enumerated;
#[cfg(test)]
mod faults;
#[cfg(test)]
mod indexed;
#[cfg(test)]
mod paths;
#[cfg(test)]
mod roots;
