//! A test of connections that come at once, over a listener on loopback.
#![tactic(auto)]

#[cfg(test)]
mod tests;
