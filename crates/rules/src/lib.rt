//! What the calls of a signer answer and leave, on all inputs, and when each refuses.
#![tactic(auto)]
