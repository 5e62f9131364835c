// The job file of examples/nightly.bqjobs.
use crate::alike::replies_alike;
use std::test::Fail;

// Eight units for three lanes, blocks among them.
const JOBS: &[u8] = b"bqjobs 1
# nightly checks

job 0 sum 10 20 30
block 1
put digest 616263
put count 61 6162616361
put words beta alpha beta
end
job 2 mix 7 0
block 0
  put sum
  put digest -
end
job 1 count 00 -
job 2 words one
job 0 sum 18446744073709551615 1
job 2 mix 0 2
";

// The replies to them.
const REPLIES: &[u8] = b"0 60
1 ba7816bf8f01cfea414140de5dae2223b00361a396177a9cb410ff61f20015ad
2 3
3 alpha=1 beta=2
4 7
5 0
6 e3b0c44298fc1c149afbf4c8996fb92427ae41e4649b934ca495991b7852b855
7 0
8 one=1
9 18446744073709551616
10 1876011003808476466
";

#[test]
fn hands_of_any_number_reply_alike(rt: HostRuntime) -> Result<(), Fail> {
    for hands in [1, 4, 16] {
        for batch in [1, 3, 256] {
            replies_alike(&rt, rt.alloc(), JOBS, REPLIES, hands, batch)?;
        }
    }
    Ok(())
}
