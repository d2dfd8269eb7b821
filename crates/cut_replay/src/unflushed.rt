use host_protocol::Reply;
use std::marker::Model;

/// The reply of a command whose programs may wait still. It is not to be said before the flash is flushed, and only
/// `Server::flush` opens it. It is seen as the reply.
#[derive(Drop)]
pub struct Unflushed {
    pub(crate) reply: Reply,
}

impl Model for Unflushed {
    ghost use Rattle.host_protocol.specs.declared.reply.Reply.{Reply};

    ghost Value = { Reply };

    ghost use Rattle.cut_replay.specs.UnflushedReply.{reply_in};

    ghost view = { reply_in };
}
