// The canonical text of files that were read and of files that are made up.
ghost use Rattle.std.specs.Prelude.{◌≤◌};

use crate::generator::generated;
use crate::laws::{made_up_file_has_each_job, printed_file_is_read_back};
use crate::print::print_jobs;
use crate::read::read_jobs;
use std::alloc::Global;
use std::process::Abort;
use std::test::Fail;

fn assert_generated(rt: &impl Abort, alloc: Global, n: u32, wanted: &[u8]) -> Result<(), Fail>
    requires { n ≤ 500000 }
{
    let text = print_jobs(alloc, &generated(alloc, n)?)?;
    assert_eq!(rt; text.as_slice(), wanted, "{n} jobs");
    Ok(())
}

#[test]
fn made_up_files_have_these_texts(rt: HostRuntime) -> Result<(), Fail> {
    assert_generated(&rt, rt.alloc(), 0, b"bqjobs 1\n")?;
    assert_generated(
        &rt,
        rt.alloc(),
        3,
        b"bqjobs 1\njob 0 sum 0 1\nblock 1\nput digest 00000001\nput count 00 00000002\nend\n",
    )?;
    assert_generated(
        &rt,
        rt.alloc(),
        12,
        b"bqjobs 1\njob 0 sum 0 1\nblock 1\nput digest 00000001\nput count 00 00000002\nend\n\
          block 2\nput mix 3 100\nput words w4 x w4\nput sum 5 6\nend\n\
          block 0\nput digest 00000006\nput count 00 00000007\nput mix 8 100\nput words w9 x w9\nend\n\
          block 1\nput sum 10 11\nput digest 0000000b\nend\n",
    )?;
    Ok(())
}

#[test]
fn made_up_file_of_1000_jobs_is_read_back(rt: HostRuntime) -> Result<(), Fail> {
    printed_file_is_read_back();
    made_up_file_has_each_job();
    let text = print_jobs(rt.alloc(), &generated(rt.alloc(), 1000)?)?;
    let file = read_jobs(rt.alloc(), text.as_slice())?;
    assert_eq!(rt; file.count(), 1000);
    let units = file.units();
    assert_eq!(rt; units.len(), 251);
    assert_eq!(rt; units[6].jobs.len(), 7);
    assert_eq!(rt; units[7].jobs.len(), 1);
    assert_eq!(rt; units[250].jobs.len(), 5);
    assert_eq!(rt; units[250].lane, 1);
    assert_eq!(rt; print_jobs(rt.alloc(), &file)?.as_slice(), text.as_slice());
    Ok(())
}

#[test]
fn odd_spelling_is_printed_plainly(rt: HostRuntime) -> Result<(), Fail> {
    let file = read_jobs(
        rt.alloc(),
        b"  bqjobs   1 \n# jobs\n\n  job  007  sum 007 0 18446744073709551615 \nblock 00\n put digest ABcd\n#end\n\
          put count aF 00fF\nput words b  ~ #\nend\nblock 3\nput mix 000 01000000\nend\nblock 4\nend\n\
          job 1 digest -\njob 2 count 00 -\njob 15 words\njob 0 sum",
    )?;
    let text = print_jobs(rt.alloc(), &file)?;
    let wanted =
        b"bqjobs 1\njob 7 sum 7 0 18446744073709551615\nblock 0\nput digest abcd\nput count af 00ff\n\
          put words b ~ #\nend\njob 3 mix 0 1000000\njob 1 digest -\njob 2 count 00 -\njob 15 words\njob 0 sum\n";
    assert_eq!(rt; text.as_slice(), wanted.as_slice());
    Ok(())
}
