//! Tests of sessions that are polled, beside the same ones served at once, and of many of them on one thread. They are no
//! part of the server.
#![tactic(auto)]

#[cfg(test)]
mod calls;
#[cfg(test)]
mod given;
#[cfg(test)]
mod many;
#[cfg(test)]
mod polled;
