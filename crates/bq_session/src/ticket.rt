/// Names one deferred operation of one session. Only a session makes one, and it can't be copied.
#[derive(Debug, Drop)]
pub struct Ticket {
    // The number of the session's lane, and its caller there.
    pub(crate) lane: u32,
    pub(crate) caller: u32,
    // Where the session keeps what it knows of the operation.
    pub(crate) key: usize,
    // Its number among the deferred operations of the session, modulo 2^64.
    pub(crate) number: u64,
}
