//! What a client says on a connection.

use up_bytes::Bytes;

/// What a client says on a connection.
#[derive(Drop)]
pub enum FromClient<Q> {
    /// Who it is: the text of a user.
    Hello(Bytes),
    /// The signature of what it was challenged to sign.
    Proof(Bytes),
    /// A question.
    Ask(Q),
    /// Nothing more comes.
    Bye,
}
