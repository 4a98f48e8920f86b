//! Why a talk or a run ended before its lines did.

/// Why a talk or a run ended before its lines did.
#[derive(Clone, Copy, Debug, PartialEq, Eq)]
pub enum TalkFault {
    /// A read returned an error.
    Reading,
    /// A write returned an error, or took 0 bytes of some, or `pay` failed.
    Writing,
    /// A line has more than 16,384 bytes.
    TooLong,
    /// A line came after the millionth.
    TooMany,
    /// An allocation failed.
    OutOfMemory,
}
