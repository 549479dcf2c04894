//! Reading a line with the host's budget (own).
ghost use Rattle.std.specs.Prelude.{IfOk, IfErr};
ghost use Rattle.gate_journal.specs.Command.{IsBudget};
ghost use Rattle.host_serve.specs.Reading.{LineIsReadAs, IsUnread};

use line_words::{LineFault, No, Request, read_request};
use session_core::with_budget;
use session_desk::reads_in_range;
use std::alloc::Global;

/// The request of a line, with the host's budget.
pub fn read(alloc: Global, budget: u64, line: &[u8]) -> Result<Request, No>
    requires { IsBudget budget }
    ensures ok { IfOk result (λ request. LineIsReadAs budget line.now request) }
    ensures exact { IfErr result (λ why. IsUnread line.now why) }
{
    reads_in_range();
    match read_request(alloc, line) {
        Ok(request) => Ok(with_budget(budget, request)),
        Err(LineFault::BadLine) => Err(No::BadLine),
        Err(LineFault::LongLine) => Err(No::LongLine),
        Err(LineFault::NoMemory) => Err(No::NoMemory),
    }
}
