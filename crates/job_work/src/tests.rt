// Answers of each kind of job, worked out by hand or taken from the standard.
use crate::{Job, answer, words_laws};
use bq_model::{Bytes, Numbers, OutOfMemory, Text, Texts};
use std::alloc::Global;
use std::test::Fail;

#[test]
fn sums_do_not_wrap(rt: HostRuntime) -> Result<(), Fail> {
    let table: [(&[u64], &str); 5] = [
        (&[], "0"),
        (&[7], "7"),
        (&[2, 3], "5"),
        (&[10, 20, 30], "60"),
        (&[u64::MAX, u64::MAX], "36893488147419103230"),
    ];
    for (numbers, wanted) in table {
        let job = Job::Sum(Numbers::from(numbers.to_vec(rt.alloc())?));
        let text = answer(rt.alloc(), &job)?;
        assert_eq!(rt; text.as_slice(), wanted.as_bytes(), "at {numbers:?}");
    }
    Ok(())
}

// The examples of the standard, but the last.
#[test]
fn digests_are_those_of_the_standard(rt: HostRuntime) -> Result<(), Fail> {
    let table = [
        (
            "",
            "e3b0c44298fc1c149afbf4c8996fb92427ae41e4649b934ca495991b7852b855",
        ),
        (
            "abc",
            "ba7816bf8f01cfea414140de5dae2223b00361a396177a9cb410ff61f20015ad",
        ),
        (
            "abcdbcdecdefdefgefghfghighijhijkijkljklmklmnlmnomnopnopq",
            "248d6a61d20638b8e5c026930c3e6039a33ce45964ff2167f6ecedd419db06c1",
        ),
    ];
    for (message, wanted) in table {
        let job = Job::Digest(Bytes::from(message.as_bytes().to_vec(rt.alloc())?));
        let text = answer(rt.alloc(), &job)?;
        assert_eq!(rt; text.as_slice(), wanted.as_bytes(), "at {message:?}");
    }
    Ok(())
}

#[test]
fn digest_of_a_million_letters(rt: HostRuntime) -> Result<(), Fail> {
    let job = Job::Digest(Bytes::from(vec![in rt.alloc(); b'a'; 1_000_000]?));
    let text = answer(rt.alloc(), &job)?;
    let wanted = "cdc76e5c9914fb9281a1c7e284d73e67f1809a48a497200e046d39ccc7112cd0";
    assert_eq!(rt; text.as_slice(), wanted.as_bytes());
    Ok(())
}

#[test]
fn counts_each_place(rt: HostRuntime) -> Result<(), Fail> {
    let table: [(u8, &[u8], &str); 6] = [
        (7, &[], "0"),
        (7, &[1, 2, 3], "0"),
        (7, &[7, 7, 7, 7, 7, 7, 7, 7, 7, 7, 7, 7], "12"),
        (0, &[0, 1, 0, 255], "2"),
        (255, &[255, 254, 127, 0, 255, 255], "3"),
        (b'a', b"abracadabra", "5"),
    ];
    for (byte, bytes, wanted) in table {
        let job = Job::Count {
            byte,
            bytes: Bytes::from(bytes.to_vec(rt.alloc())?),
        };
        let text = answer(rt.alloc(), &job)?;
        assert_eq!(rt;
            text.as_slice(),
            wanted.as_bytes(),
            "of {byte} in {bytes:?}"
        );
    }
    Ok(())
}

#[test]
fn mix_makes_each_turn(rt: HostRuntime) -> Result<(), Fail> {
    let table = [
        (0, 1, "1442695040888963407"),
        (0, 2, "1876011003808476466"),
        (7, 0, "7"),
        (u64::MAX, 3, "10372369020401571876"),
        (0, 1_000_000, "9436980158444776256"),
    ];
    for (start, turns, wanted) in table {
        let text = answer(rt.alloc(), &Job::Mix { start, turns })?;
        assert_eq!(rt; text.as_slice(), wanted.as_bytes(), "after {turns} turns");
    }
    Ok(())
}

fn words_of(alloc: Global, line: &str) -> Result<Job, OutOfMemory> {
    let mut words = Texts::new(alloc);
    for word in line.split_whitespace() {
        words.push(Text::from(Vec::from_slice(alloc, word.as_bytes())?))?;
    }
    Ok(Job::Words(words))
}

#[test]
fn words_are_counted_in_byte_order(rt: HostRuntime) -> Result<(), Fail> {
    let table = [
        ("", "-"),
        ("w3 x w3", "w3=2 x=1"),
        ("b a c a b a", "a=3 b=2 c=1"),
        ("ab a B aa ~ ! ab", "!=1 B=1 a=1 aa=1 ab=2 ~=1"),
        ("= == =", "==2 ===1"),
        (
            "thequickbrownfoxjumpsoverthelazydog z thequickbrownfoxjumpsoverthelazydo",
            "thequickbrownfoxjumpsoverthelazydo=1 thequickbrownfoxjumpsoverthelazydog=1 z=1",
        ),
        ("a a a a a a a a a a a a", "a=12"),
    ];
    for (line, wanted) in table {
        let job = words_of(rt.alloc(), line)?;
        let text = answer(rt.alloc(), &job)?;
        assert_eq!(rt; text.as_slice(), wanted.as_bytes(), "at {line:?}");
    }
    words_laws();
    Ok(())
}
