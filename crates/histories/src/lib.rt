//! The histories that the calls of a signer make, and what holds of every history.
#![tactic(auto)]
