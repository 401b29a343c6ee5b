//! Laws of command bodies.

ghost use Rattle.cmd_bodies.specs.Reply.{ReadsBack};

/// Reading a reply from bytes that hold it gives that reply.
pub fn reply_reads_back()
    ensures { ReadsBack }
{}
