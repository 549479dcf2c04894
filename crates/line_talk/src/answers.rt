//! What answers the lines of a conversation.
ghost use Rattle.std.specs.Prelude.{◌≡◌, OnOk, IfErr, false};
ghost use Rattle.std.specs.Option.{option_map};

use crate::sink::{Sink, Stop};
use std::alloc::{AllocError, Global};

/// One side of a conversation, which answers lines. It is lent, and told of whatever ends a call.
pub trait Answers {
    ghost use Rattle.std.specs.Prelude.{Bool};
    ghost use Rattle.line_talk.specs.Conversation.{Turn, TellsTurn, Breaks};
    ghost use Rattle.line_talk.specs.Lines.{IsHeard};

    /// What is known of it.
    ghost State: { Type 0 };

    ghost state: { Self → State };

    /// From one state to the next it answers this line by this reply.
    ghost turn: { Turn State };

    /// The same, where the reply isn't written whole.
    ghost cut: { Turn State };

    /// No further line is answered.
    ghost over: { State → Bool };

    /// Holds of it before and after each call.
    ghost invariant: { Self → Type 0 };

    /// It has the room that the next line wants.
    ghost ready: { Self → Type 0 };

    /// What no call changes: the references that it holds.
    ghost Lent: { Type 0 };

    ghost lent: { Self → Lent };

    fn is_over(&self) -> bool
        ensures { result ≡ over (state self.now) };

    /// Takes the room that the next line wants. It is called before that line is read.
    fn make_room(&mut self, alloc: Global) -> Result<(), AllocError>
        requires invariant { invariant self.old }
        ensures state { state self.new ≡ state self.old }
        ensures ready { OnOk result (ready self.new) }
        ensures invariant { invariant self.new }
        ensures lent { lent self.new ≡ lent self.old };

    /// Writes the reply to a line, which is given without its LF, or to one that was dropped.
    fn answer<K: Sink>(
        &mut self,
        alloc: Global,
        line: Option<&[u8]>,
        output: &mut K,
    ) -> Result<(), Stop>
        requires going { over (state self.old) ≡ false }
        requires invariant { invariant self.old }
        requires ready { ready self.old }
        requires heard { IsHeard (option_map (λ l. l.now) line) }
        ensures ok { OnOk result (TellsTurn turn (state self.old)
            (option_map (λ l. l.now) line.entry) (state self.new)
            (K.sink output.old) (K.sink output.new)) }
        ensures err { IfErr result (λ cause. Breaks cut (state self.old)
            (option_map (λ l. l.now) line.entry) (state self.new)
            (K.sink output.old) (K.sink output.new) cause) }
        ensures invariant { invariant self.new }
        ensures lent { lent self.new ≡ lent self.old }
        ensures beside { K.beside output.new ≡ K.beside output.old };
}
