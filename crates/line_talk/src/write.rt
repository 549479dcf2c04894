//! Texts that are written whole.
ghost use Rattle.std.specs.Prelude.{◌≡◌, OnOk, IfErr};
ghost use Rattle.line_talk.specs.Streams.{Wrote};
ghost use Rattle.line_talk.specs.Writing.{Stopped};

use crate::sink::{Put, Sink, Stop};

/// Writes a whole text, in as many pieces as the sink takes.
pub fn write_all<K: Sink>(output: &mut K, text: &[u8]) -> Result<(), Stop>
    ensures ok { OnOk result (Wrote (K.sink output.old) (K.sink output.new) text.now) }
    ensures err { IfErr result (λ cause.
        Stopped (K.sink output.old) (K.sink output.new) text.now cause) }
    ensures cause { IfErr result (λ cause. cause ≡ Stop.Output) }
    ensures beside { K.beside output.new ≡ K.beside output.old }
{
    let mut rest = text;
    while !rest.is_empty() {
        match output.write(rest) {
            Put::Took(count) => (_, rest) = rest.split_at(count),
            Put::Failed => return Err(Stop::Output),
        }
    }
    Ok(())
}
