//! Tests of the board that threads share, which is dear to prove: standing there, they would have it proved a second time.
//! They are no part of the server.
#![tactic(auto)]

#[cfg(test)]
mod seats;
