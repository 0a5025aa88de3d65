//! Why reading stopped.
ghost use Rattle.std.specs.Prelude.{◌≡◌};
ghost use Rattle.bc_tokens.specs.declared.refusal.Refusal.TheVariants.{NoMemory};

use std::alloc::AllocError;

/// Why reading a text stopped: at its first bad token, or out of memory. `at` is the byte at which the token begins. `NotAscii`: the byte
/// is not ASCII. `Token`: no token begins here. `Grammar`: the token may not be here. `Limit`: the token is one too many, or its number or
/// name is past a limit.
#[derive(Debug, Drop)]
pub enum Refusal {
    NotAscii { at: usize },
    Token { at: usize },
    Grammar { at: usize },
    Limit { at: usize },
    NoMemory,
}

impl From<AllocError> for Refusal {
    ghost from_gives = { λ _ e. e ≡ NoMemory };

    fn from(_error: AllocError) -> Refusal {
        Refusal::NoMemory
    }
}
