//! Many sessions, each with its history (own).

ghost use Rattle.std.specs.Prelude.{◌≡◌, ◌≤◌, ◌<◌, All, [], replicate, length};
ghost use Rattle.std.specs.Prelude.{IfOk, IfSome, OnOk, OnErr};
ghost use Rattle.session_core.specs.Sessions.{with_budget, history_of, accepting, reply_to};
ghost use Rattle.session_core.specs.Sessions.{after_line};

use crate::checks::session_of;
use crate::commands::Commands;
use crate::decision::{Decision, decide};
use gate_journal::Command;
use line_words::{LineFault, No, Reply, Request, read_request};
use std::alloc::{AllocError, Global};
use std::marker::Model;
use story_run::Story;

/// How many sessions a host has.
const SESSIONS: usize = 64;

/// The sessions of a host, by their numbers.
#[derive(Drop)]
pub struct Sessions {
    histories: Vec<Commands>,
}

impl Model for Sessions {
    ghost use Rattle.std.specs.Prelude.{◌≤◌, All, List, length};
    ghost use Rattle.gate_journal.specs.declared.command.Command.{Command};

    ghost Value = { List (List Command) };

    ghost view = { λ s. s.histories.items };

    ghost invariant = { λ s. All (λ history. length history ≤ 8192) s.histories.items };
}

/// A request to open a session takes the host's budget.
pub fn with_budget(budget: u64, request: Request) -> Request
    ensures { result ≡ with_budget budget request }
{
    match request {
        Request::Open {
            s,
            key,
            story,
            seed,
            cols,
            rows,
            ..
        } => Request::Open {
            s,
            key,
            story,
            seed,
            cols,
            rows,
            budget,
        },
        _ => request,
    }
}

impl Sessions {
    /// 64 sessions that have accepted nothing; an error where memory runs out.
    pub fn new(alloc: Global) -> Result<Sessions, AllocError>
        ensures { IfOk result (λ sessions. sessions ≡ replicate 64 []) }
    {
        let mut histories = Vec::new(alloc);
        for _ in 0..SESSIONS {
            histories.push(Commands::new(alloc))?;
        }
        Ok(Sessions { histories })
    }

    fn history_of(&self, s: u32) -> &[Command]
        ensures value { result.now ≡ history_of self.now s }
        ensures within { length result.now ≤ 8192 }
    {
        match self.histories.get(s as usize) {
            Some(history) => history.as_slice(),
            None => &[],
        }
    }

    fn accept(&mut self, s: u32, accepted: Option<Command>) -> Result<(), AllocError>
        requires { IfSome accepted (λ _. length (history_of self.old s) < 8192) }
        ensures ok { OnOk result (self.new ≡ accepting self.old s accepted) }
        ensures err { OnErr result (self.new ≡ self.old) }
    {
        if let Some(command) = accepted {
            if let Some(history) = self.histories.get_mut(s as usize) {
                history.push(command)?;
            }
        }
        Ok(())
    }

    /// Answers a line, which is given without its LF, by the session that it names. The budget is
    /// that of a turn, in ticks, for the sessions that the line opens. An error is want of memory.
    pub fn answer(
        &mut self,
        alloc: Global,
        stories: &[Story],
        budget: u64,
        line: &[u8],
    ) -> Result<Reply, AllocError>
        ensures reply { IfOk result
            (λ reply. reply ≡ reply_to stories.now budget self.old line.now) }
        ensures kept { OnOk result (self.new ≡ after_line stories.now budget self.old line.now) }
        ensures err { OnErr result (self.new ≡ self.old) }
    {
        let request = match read_request(alloc, line) {
            Ok(request) => with_budget(budget, request),
            Err(LineFault::BadLine) => return Ok(Reply::No(No::BadLine)),
            Err(LineFault::LongLine) => return Ok(Reply::No(No::LongLine)),
            Err(LineFault::NoMemory) => return Err(AllocError),
        };
        let s = session_of(&request);
        let Decision { reply, accepted } = decide(alloc, stories, self.history_of(s), &request)?;
        self.accept(s, accepted)?;
        Ok(reply)
    }
}
