// Why a text is no script.
ghost use Rattle.std.specs.Prelude.{◌≡◌};
ghost use Rattle.script_lines.specs.declared.fault.ScriptFault.TheVariants.{NoMemory};

use std::alloc::AllocError;

/// Why a text is not read as a script.
#[derive(Clone, Copy, PartialEq, Eq)]
pub enum ScriptFault {
    /// The first line that is none of a script's; lines count from 1.
    BadLine { number: usize },
    NoMemory,
}

impl From<AllocError> for ScriptFault {
    ghost from_gives = { λ _ r. r ≡ NoMemory };

    fn from(_error: AllocError) -> ScriptFault {
        ScriptFault::NoMemory
    }
}
