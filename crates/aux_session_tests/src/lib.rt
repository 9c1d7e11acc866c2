//! Tests of inner calls of sessions and of doors, and of jobs that run at once: what no row of `aux_rows` can reach. They are
//! no part of the server.
#![tactic(auto)]

#[cfg(test)]
mod at_once;
#[cfg(test)]
mod counted;
#[cfg(test)]
mod doors;
#[cfg(test)]
mod gated;
#[cfg(test)]
mod kept_documents;
#[cfg(test)]
mod made_trees;
