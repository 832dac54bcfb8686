//! What holds of the messages of a feed, whatever the bytes.
ghost use Rattle.up_bytes.specs.Sequences.{AreMessages};
ghost use Rattle.up_feed_wire.specs.FeedMessages.{IsTypedAsk, IsTypedReply, ask_of, feed_ask, feed_reply, reply_of};

/// Each message of a feed has one spelling, which is read again, and exactly the spellings are read. No message's spelling begins
/// another's; one that is cut is short.
pub fn feed_messages_have_one_spelling()
    ensures ask { AreMessages IsTypedAsk feed_ask ask_of }
    ensures reply { AreMessages IsTypedReply feed_reply reply_of }
{}
