// What a call of the program leaves to its caller.
ghost use Rattle.std.specs.Prelude.{◌≡◌, []};

use crate::status::Status;
use bq_lane::BqLane;
use bq_model::{Items, Lane};
use bulk_dispatcher::{Done, Reply};
use std::alloc::Global;

/// The lane that serves jobs.
pub type ServingLane = BqLane;

/// The whole history of a lane that served jobs.
pub type Book = <ServingLane as Lane>::Book;

/// What a call of `top` leaves. Both lists are empty but where jobs were run and what was due of them was written.
#[derive(Drop)]
pub struct Ended {
    /// The status that the program ends with.
    pub status: u8,
    /// The replies to the jobs, by rising number of these.
    pub replies: Items<Reply>,
    /// The books of the lanes, by rising number.
    pub books: Items<Book>,
}

impl Ended {
    /// A call that ended with no replies.
    pub(crate) fn without(alloc: Global, status: u8) -> Ended
        ensures status { result.status ≡ status }
        ensures replies { result.replies ≡ [] }
        ensures books { result.books ≡ [] }
    {
        Ended {
            status,
            replies: Items::new(alloc),
            books: Items::new(alloc),
        }
    }

    /// A call whose jobs were run.
    pub(crate) fn with(done: Done<ServingLane>) -> Ended
        ensures status { result.status ≡ 0 }
        ensures replies { result.replies ≡ done.replies }
        ensures books { result.books ≡ done.books }
    {
        Ended {
            status: Status::Done as u8,
            replies: done.replies,
            books: done.books,
        }
    }
}
