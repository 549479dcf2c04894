//! Laws of streams.

ghost use Rattle.glk_streams.specs.Laws.{BeginsValid, StreamsStayValid};
ghost use Rattle.glk_streams.specs.RoundTrip.{ReadsBack, StreamRoundTrip};

/// No streams are valid, and each call keeps streams, file references and files valid.
pub fn stays_valid()
    ensures begins { BeginsValid }
    ensures stays { StreamsStayValid }
{}

/// The characters that are put into an empty file, one after the other, are those that are read
/// from its start: codes below 256 in bytes, Unicode scalar values in UTF-8, all codes in four
/// bytes.
pub fn round_trip()
    ensures { StreamRoundTrip }
{}

/// The characters that are put to one stream on an empty file are those that another stream on it
/// then gives, and no more, where the files have room for them.
pub fn reads_back()
    ensures { ReadsBack }
{}
