//! The first bytes of a link, which tell a client from a browser that was led here.

/// What another protocol's links begin with: the methods of HTTP and its first field, and the first
/// record of TLS. No request of a client begins so.
const OTHERS: [&[u8]; 12] = [
    b"GET ",
    b"HEAD ",
    b"POST ",
    b"PUT ",
    b"DELETE ",
    b"CONNECT ",
    b"OPTIONS ",
    b"TRACE ",
    b"PATCH ",
    b"PRI ",
    b"Host:",
    b"\x16\x03",
];

/// As many bytes as tell all of these apart.
pub const ENOUGH: usize = 8;

/// Who has begun a link.
#[derive(Clone, Copy, Debug, PartialEq, Eq)]
pub enum Caller {
    Client,
    Other,
    /// More bytes will tell.
    Unknown,
}

/// One of the two begins with the other, in letters of either case.
fn agree(head: &[u8], other: &[u8]) -> bool {
    let count = head.len().min(other.len());
    head[..count].eq_ignore_ascii_case(&other[..count])
}

/// Who begins a link with these bytes.
pub fn caller_of(head: &[u8]) -> Caller {
    let mut caller = Caller::Client;
    for other in OTHERS {
        if agree(head, other) {
            if head.len() >= other.len() {
                return Caller::Other;
            }
            caller = Caller::Unknown;
        }
    }
    caller
}
