// Each call of both ends.
use crate::{Token, station};
use std::test::Fail;

fn named(token: &Token) -> (u32, u64) {
    (token.worker(), token.number())
}

#[test]
fn each_take_gives_the_next_token_of_the_worker(rt: HostRuntime) -> Result<(), Fail> {
    let (mut poster, mut taker) = station(rt.alloc(), 3)?;
    poster.post();
    assert_eq!(rt; named(&taker.take(&rt)), (3, 0));
    poster.post();
    assert_eq!(rt; named(&taker.take(&rt)), (3, 1));
    Ok(())
}
