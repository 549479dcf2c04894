//! The nodes of the string-decoding table.

ghost use Rattle.std.specs.Prelude.{◌≡◌, IfOk};
ghost use Rattle.vm_string.specs.Node.{node_at, BeginsInside};

use crate::stop::StringStop;
use vm_memory::Memory;

// A node: a fork, the end of the string, one character, where characters of one byte or of four
// begin, or an object with its arguments.
#[derive(Clone, Copy, Debug, PartialEq, Eq)]
pub(crate) enum Node {
    Fork { left: u32, right: u32 },
    End,
    One(u32),
    Bytes(u32),
    Words(u32),
    Refers { at: u32, args_at: u32, args: u32 },
}

/// The node at an address.
#[tactic(auto, unfolding(crate::specs::Node::node_at, crate::specs::Node::contents))]
pub(crate) fn read_node(memory: &Memory<'_>, at: u32) -> Result<Node, StringStop>
    ensures value { result ≡ node_at memory.now at }
    ensures inside { IfOk result BeginsInside }
{
    Ok(match memory.read1(at)? {
        0x00 => {
            let left = memory.read4(at + 1)?;
            let right = memory.read4(at + 5)?;
            Node::Fork { left, right }
        }
        0x01 => Node::End,
        0x02 => Node::One(memory.read1(at + 1)?),
        0x03 => Node::Bytes(at + 1),
        0x04 => Node::One(memory.read4(at + 1)?),
        0x05 => Node::Words(at + 1),
        0x08 => Node::Refers {
            at: memory.read4(at + 1)?,
            args_at: 0,
            args: 0,
        },
        0x09 => Node::Refers {
            at: memory.read4(memory.read4(at + 1)?)?,
            args_at: 0,
            args: 0,
        },
        0x0A => Node::Refers {
            at: memory.read4(at + 1)?,
            args: memory.read4(at + 5)?,
            args_at: at + 9,
        },
        0x0B => {
            let place = memory.read4(at + 1)?;
            let args = memory.read4(at + 5)?;
            Node::Refers {
                at: memory.read4(place)?,
                args_at: at + 9,
                args,
            }
        }
        _ => return Err(StringStop::BadString(at)),
    })
}
