//! What a call on a whole key gives in place of an answer.

use records::Refusal;
use schemes::UnknownScheme;

/// Why a call has no answer.
#[derive(Clone, Copy)]
pub enum Failure {
    /// Verifier or signer refuses with this.
    Refused(Refusal),
    /// No hash has the number that was given, or no code.
    Unknown,
}

impl From<Refusal> for Failure {
    ghost use Rattle.std.specs.Prelude.{◌≡◌};
    ghost use Rattle.bench_calls.specs.declared.failure.Failure.{Failure};

    ghost from_gives = { λ refusal failure. failure ≡ Failure.Refused refusal };

    fn from(refusal: Refusal) -> Failure {
        Failure::Refused(refusal)
    }
}

impl From<UnknownScheme> for Failure {
    ghost use Rattle.std.specs.Prelude.{◌≡◌};
    ghost use Rattle.bench_calls.specs.declared.failure.Failure.{Failure};

    ghost from_gives = { λ _ failure. failure ≡ Failure.Unknown };

    fn from(_: UnknownScheme) -> Failure {
        Failure::Unknown
    }
}
