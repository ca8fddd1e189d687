// Why a session did not take a command, an action, an object or an ask.
use desk_terms::Cause;
use session_commands::Refusal;
use thiserror::Error;

/// Why a step ended early.
#[derive(Clone, Copy, Debug, Error, PartialEq, Eq)]
pub enum StepFault {
    /// An earlier step ran out of memory. Nothing has changed.
    #[error("stopped")]
    Stopped,
    /// The command has a name or an action that the session lacks, or a number beyond its limit. Nothing has changed.
    #[error("not of this session")]
    Unknown,
    /// Memory ran out in the round. The session is stopped.
    #[error("out of memory")]
    NoMemory,
}

/// Why a change was not tried. Nothing has changed.
#[derive(Clone, Copy, Debug, Error, PartialEq, Eq)]
pub enum ChangeFault {
    /// An earlier step ran out of memory.
    #[error("stopped")]
    Stopped,
    /// The command has a name or an action that the session lacks, or a number beyond its limit.
    #[error("not of this session")]
    Unknown,
    /// The command is not quiet. Use `step`.
    #[error("not quiet")]
    NotQuiet,
}

/// Why no action was added. Nothing has changed.
#[derive(Clone, Copy, Debug, Error, PartialEq, Eq)]
pub enum BlockFault {
    /// The session has 65,536 actions or more.
    #[error("too many actions")]
    Full,
    /// A command has a name or an action that the session lacks, or a number beyond its limit.
    #[error("not of this session")]
    Unknown,
    #[error("out of memory")]
    NoMemory,
}

/// Why no object was made: the first reason of these. Nothing has changed.
#[derive(Clone, Copy, Debug, Error, PartialEq, Eq)]
pub enum ObjectFault {
    /// An earlier step ran out of memory.
    #[error("stopped")]
    Stopped,
    /// The session has no such name.
    #[error("not of this session")]
    Unknown,
    /// The terms are beyond their limits.
    #[error("beyond the limits")]
    Limits,
    /// An object in the terms is not live, or not of the required kind.
    #[error("no such input")]
    Inputs,
    /// A live object has the name, or there is no room.
    #[error("refused")]
    Refused(Refusal),
    #[error("out of memory")]
    NoMemory,
}

/// Why an ask has no result.
#[derive(Clone, Copy, Debug, Error, PartialEq, Eq)]
pub enum AskFault {
    /// No live object has the name, or the object is never computed. Nothing has changed.
    #[error("refused")]
    Refused(Refusal),
    /// Memory ran out. Values that were computed stay, and the session goes on.
    #[error("out of memory")]
    NoMemory,
}

/// Why an object has no price.
#[derive(Clone, Copy, Debug, Error, PartialEq, Eq)]
pub enum PriceFault {
    /// No live object has the name, or the object is never computed. Nothing has changed.
    #[error("refused")]
    Refused(Refusal),
    /// It was asked and has no value, for this cause.
    #[error("not priced")]
    Unpriced(Cause),
    /// It was asked, and its value is a curve.
    #[error("not money")]
    NotMoney,
    /// Memory ran out. Values that were computed stay, and the session goes on.
    #[error("out of memory")]
    NoMemory,
}
