// Many units of one hand on one lane: far more batches of a caller than the lane has callers.
use crate::alike::replies_alike;
use std::test::Fail;

#[test]
fn three_hundred_units_of_one_hand_are_replied_alike(rt: HostRuntime) -> Result<(), Fail> {
    let mut jobs = Vec::new(rt.alloc());
    jobs.extend_from_slice(b"bqjobs 1\n")?;
    let mut replies = Vec::new(rt.alloc());
    for k in 0..300u32 {
        let job = format!(in rt.alloc(); "job 0 sum {k}\n")?;
        jobs.extend_from_slice(job.as_bytes())?;
        let reply = format!(in rt.alloc(); "{k} {k}\n")?;
        replies.extend_from_slice(reply.as_bytes())?;
    }
    replies_alike(&rt, rt.alloc(), jobs.as_slice(), replies.as_slice(), 1, 8)
}
