//! Codes of one-time signatures: each turns a stamp of 16 bytes and a place into a digit. A chain
//! is stepped up to its digit, so a code has one chain for each place. No call refuses.
#![tactic(auto)]

mod bits;
mod code;
mod lamport_diffie;
mod widths;
mod winternitz;

pub use code::Code;
pub use lamport_diffie::LamportDiffie;
pub use widths::{DigitWidth, FourBits, TwoBits};
pub use winternitz::{Winternitz, Winternitz2, Winternitz4};
