//! What a stream is, whatever pieces it comes in.
ghost use Rattle.ut_stream.specs.Streams.{OneStream, StreamInPieces};

/// Bytes are read as frames in one way, and what is read of them in pieces is what is read of all.
pub fn stream_laws()
    ensures one { OneStream }
    ensures pieces { StreamInPieces }
{}
