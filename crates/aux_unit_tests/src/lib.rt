//! Tests of single crates that are dear to prove: standing there, they would have each of them proved a second time.
//! They are no part of the server.
#![tactic(auto)]

#[cfg(test)]
mod bare;
#[cfg(test)]
mod doors;
#[cfg(test)]
mod kept_paths;
#[cfg(test)]
mod lines;
#[cfg(test)]
mod made_paths;
#[cfg(test)]
mod messages;
#[cfg(test)]
mod replies;
#[cfg(test)]
mod shadowed;
#[cfg(test)]
mod sharing;
#[cfg(test)]
mod tables;
#[cfg(test)]
mod text_places;
#[cfg(test)]
mod version_edits;
#[cfg(test)]
mod versions;
