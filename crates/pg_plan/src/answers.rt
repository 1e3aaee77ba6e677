//! What an arrival or a drain answers.
use thiserror::Error;

/// What a result was that arrived.
#[derive(Clone, Copy, Debug, PartialEq, Eq)]
pub enum Arrival {
    /// It is the first one of an announced block.
    Taken,
    /// The result of its block was taken before.
    Double,
    /// It is of another query, or of no announced block, or of other bytes.
    Stranger,
}

/// Why a drain wrote less than all that may be handed out.
#[derive(Clone, Copy, Debug, PartialEq, Eq, Error)]
pub enum SinkFault {
    /// A write failed in this drain, or took no byte of a text that isn't empty.
    #[error("write failed")]
    WriteFailed,
    /// An earlier drain answered `WriteFailed`. This one wrote nothing.
    #[error("an earlier write failed")]
    Failed,
}
