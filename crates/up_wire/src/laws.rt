//! What holds of the spellings of messages and key records, and of how they are read, whatever the bytes.

ghost use Rattle.up_bytes.specs.Sequences.{AreMessages};
ghost use Rattle.up_wire.specs.Keys.{FitsKeyRecord, logged, logged_of};
ghost use Rattle.up_wire.specs.Reading.{client_of, server_of};
ghost use Rattle.up_wire.specs.Spelling.{client, FitsClient, FitsServer, server};

/// Each message has one spelling, which is read again, and exactly the spellings are read. No message's spelling begins
/// another's; one that is cut is short.
pub fn messages_have_one_spelling()
    ensures client { AreMessages FitsClient client client_of }
    ensures server { AreMessages FitsServer server server_of }
{}

/// So it is with each record of a key server's log.
pub fn key_records_have_one_spelling()
    ensures { AreMessages FitsKeyRecord logged logged_of }
{}
