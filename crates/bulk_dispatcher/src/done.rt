// What a run leaves: replies and books.
use crate::reply::Reply;
use bq_model::{Items, Lane};

/// What a run leaves.
#[derive(Drop)]
pub struct Done<L: Lane> {
    /// One reply for each job, by rising number.
    pub replies: Items<Reply>,
    /// One book for each lane, by rising number.
    pub books: Items<L::Book>,
}
