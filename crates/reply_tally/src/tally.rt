//! Refusals, counted in the bytes of written replies (own).

ghost use Rattle.std.specs.Prelude.{◌≡◌, ◌<◌, ◌+◌, ◌-◌, ◌^◌, ◌||◌, if◌then◌else◌, List};
ghost use Rattle.std.specs.Prelude.{length, filter, map};
ghost use Rattle.std.specs.List.{All, list_any};
ghost use Rattle.line_words.specs.declared.reply.Reply.{Reply};
ghost use Rattle.line_words.specs.Reply.{print_reply};
ghost use Rattle.line_talk.specs.Conversation.{texts_joined};
ghost use Rattle.line_talk.specs.Lines.{lines};
ghost use Rattle.reply_tally.specs.ShowLines.{HasShowLines};
ghost use Rattle.reply_tally.specs.Refusals.{begins_refusal, says_failure};
ghost use Rattle.reply_tally.specs.Tally.{AddsLine, IsTallyOf};

/// How many refusals stand among written replies, and whether one of them says that the host
/// failed: its disk (`NO 11`) or its memory (`NO 12`).
#[derive(Clone, Copy, Debug, PartialEq, Eq)]
pub struct Tally {
    pub refusals: u64,
    pub failed: bool,
}

fn begins_refusal(line: &[u8]) -> bool
    ensures { result ≡ begins_refusal line.now }
{
    line.starts_with(b"NO ")
}

fn says_failure(line: &[u8]) -> bool
    ensures { result ≡ says_failure line.now }
{
    line == b"NO 12".as_slice() || line.starts_with(b"NO 11 ")
}

impl Tally {
    /// With one line more.
    fn with(self, line: &[u8]) -> Tally
        requires { self.refusals < 2 ^ 64 - 1 }
        ensures { AddsLine line.now self result }
    {
        Tally {
            refusals: self.refusals + u64::from(begins_refusal(line)),
            failed: self.failed || says_failure(line),
        }
    }
}

/// Bytes behind the last LF are no line.
pub fn tally_of(bytes: &[u8]) -> Tally
    ensures refusals { result.refusals ≡ length (filter begins_refusal (lines bytes.now)) }
    ensures failed { result.failed ≡ list_any says_failure (lines bytes.now) }
    ensures written { (replies : List Reply) → All HasShowLines replies
        → bytes.now ≡ texts_joined (map print_reply replies) → IsTallyOf replies result }
{
    let mut tally = Tally {
        refusals: 0,
        failed: false,
    };
    let mut start = 0;
    for (i, byte) in bytes.iter().enumerate() {
        if *byte == b'\n' {
            tally = tally.with(&bytes[start..i]);
            start = i + 1;
        }
    }
    tally
}
