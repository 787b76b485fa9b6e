ghost use Rattle.std.specs.Prelude.{◌≡◌};
ghost use Rattle.report_text.specs.declared.fault.TextFault.TheVariants as fault;

use thiserror::Error;

/// Why there is no text.
#[derive(Clone, Copy, Debug, PartialEq, Eq, Error)]
pub enum TextFault {
    /// The text has more bytes than there is room for.
    #[error("no room for the text")]
    Room,
    /// There was no memory.
    #[error("out of memory")]
    Memory,
}

impl From<memory_core::Memory> for TextFault {
    ghost from_gives = { λ _ e. e ≡ fault.Memory };

    fn from(_error: memory_core::Memory) -> TextFault {
        TextFault::Memory
    }
}
