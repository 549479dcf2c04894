//! How a conversation ends.
/// How a conversation ends.
#[derive(Clone, Copy, Debug, PartialEq, Eq)]
pub enum Ended {
    /// The input was read to its end; or what answers the lines has ended the talk, as a story that
    /// is over. A host, which never does, has read its link to the end.
    End,
    /// The input failed.
    ReadFault,
    /// The output failed.
    WriteFault,
    /// 1,048,576 lines were answered, or all whole lines of 2^31 bytes.
    LineLimit,
    /// Memory was wanted.
    NoMemory,
}
