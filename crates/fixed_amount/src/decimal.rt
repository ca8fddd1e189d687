// What keeps a text from being read as a decimal.
use thiserror::Error;

/// Why a text is not read as a decimal: `Empty` where it has no byte; `Char` with the first place, in bytes, at which
/// no decimal goes on so; `Places` where more digits follow the point than asked for; `Range` where the number times
/// 10^places is none of 64 bits. They are tested in this order. (This project's profile.)
#[derive(Clone, Copy, Debug, PartialEq, Eq, Error)]
pub enum DecimalFault {
    #[error("the text is empty")]
    Empty,
    #[error("not a decimal from byte {0} on")]
    Char(usize),
    #[error("too many digits behind the point")]
    Places,
    #[error("the number is out of range")]
    Range,
}
