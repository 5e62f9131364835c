// Texts cut into lines and words, what single words are, and whole texts of a kind of their own.
use crate::{
    LineReader, LineRefused, Lines, Words, append_byte_word, append_hex_word, byte_word,
    fault_of_a_line_comes_first_in_the_order, fault_of_a_text_is_that_of_its_first_faulty_line,
    first_of, hex_word, is_header, is_passed_over, is_text, number, number_within,
    printed_words_are_read_back, read_text,
};
use bq_model::{OutOfMemory, Text, TextCause, TextFault, TextRefused};
use std::test::Fail;

#[test]
fn lines_end_at_line_feeds(rt: HostRuntime) {
    let table: [(&[u8], &[&[u8]]); 6] = [
        (b"", &[]),
        (b"\n", &[b""]),
        (b"ab", &[b"ab"]),
        (b"ab\n", &[b"ab"]),
        (b"ab\n\nc\r", &[b"ab", b"", b"c\r"]),
        (b"\n\nab\n\n", &[b"", b"", b"ab", b""]),
    ];
    for (text, wanted) in table {
        let mut lines = Lines::new(text);
        for line in wanted {
            assert!(rt; lines.next() == Some(*line), "in {text:?}");
        }
        assert!(rt; lines.next().is_none(), "in {text:?}");
    }
}

#[test]
fn words_stand_between_blanks(rt: HostRuntime) {
    let table: [(&[u8], &[&[u8]]); 5] = [
        (b"", &[]),
        (b"   ", &[]),
        (b"ab", &[b"ab"]),
        (b"  ab c\td   #e ", &[b"ab", b"c\td", b"#e"]),
        (b"a b", &[b"a", b"b"]),
    ];
    for (line, wanted) in table {
        let mut words = Words::new(line);
        for word in wanted {
            assert!(rt; words.next() == Some(*word), "in {line:?}");
        }
        assert!(rt; words.next().is_none(), "in {line:?}");
    }
}

#[test]
fn lines_are_headers_or_passed_over_by_their_words(rt: HostRuntime) {
    for (line, passed) in [
        ("", true),
        ("  ", true),
        (" #", true),
        ("#a b", true),
        ("a #", false),
    ] {
        assert_eq!(rt;
            is_passed_over(Words::new(line.as_bytes())),
            passed,
            "{line}"
        );
    }
    let headers = [
        ("bqjobs 1", true),
        ("  bqjobs   1 ", true),
        ("bqjobs 01", false),
        ("bqjobs", false),
        ("bqjobs 1 1", false),
    ];
    for (line, wanted) in headers {
        assert_eq!(rt;
            is_header(Words::new(line.as_bytes()), b"bqjobs", b"1"),
            wanted,
            "{line}"
        );
    }
    assert!(rt; is_text(b" ~"));
    assert!(rt; is_text(b""));
    assert!(rt; !is_text(b"a\x7f"));
    assert!(rt; !is_text(b"\x1f"));
}

#[test]
fn numbers_end_at_u64(rt: HostRuntime) {
    let table: [(&[u8], Option<u64>); 8] = [
        (b"0", Some(0)),
        (b"007", Some(7)),
        (b"18446744073709551615", Some(u64::MAX)),
        (b"0000018446744073709551615", Some(u64::MAX)),
        (b"18446744073709551616", None),
        (b"", None),
        (b"+1", None),
        (b"1x", None),
    ];
    for (word, wanted) in table {
        assert_eq!(rt; number(word), wanted, "{word:?}");
    }
    assert_eq!(rt; number_within(b"1", 1, 17), Some(1));
    assert_eq!(rt; number_within(b"17", 1, 17), Some(17));
    assert_eq!(rt; number_within(b"18", 1, 17), None);
    assert_eq!(rt; number_within(b"0", 1, 17), None);
    assert_eq!(rt; number_within(b"x", 0, 17), None);
}

#[test]
fn hex_words_have_pairs_of_digits_in_either_case(rt: HostRuntime) -> Result<(), Fail> {
    let table: [(&[u8], Option<&[u8]>); 8] = [
        (b"-", Some(b"")),
        (b"00fF", Some(b"\x00\xff")),
        (b"616263", Some(b"abc")),
        (b"", None),
        (b"0", None),
        (b"--", None),
        (b"0g", None),
        (b"0x00", None),
    ];
    for (word, wanted) in table {
        let found = hex_word(rt.alloc(), word)?;
        assert!(rt; found.is_some() == wanted.is_some(), "{word:?}");
        if let (Some(bytes), Some(wanted)) = (found, wanted) {
            assert!(rt; bytes.as_slice() == wanted, "{word:?}");
        }
    }
    let bytes: [(&[u8], Option<u8>); 6] = [
        (b"00", Some(0)),
        (b"aB", Some(171)),
        (b"0", None),
        (b"-", None),
        (b"000", None),
        (b"0000", None),
    ];
    for (word, wanted) in bytes {
        assert_eq!(rt; byte_word(word), wanted, "{word:?}");
    }
    Ok(())
}

#[test]
fn hex_words_are_printed_in_lower_case(rt: HostRuntime) -> Result<(), Fail> {
    let mut text = Text::new(rt.alloc());
    append_hex_word(&mut text, b"")?;
    append_hex_word(&mut text, b"\x00\xff\x9a")?;
    append_byte_word(&mut text, 0xb0)?;
    assert_eq!(rt; text.as_slice(), b"-00ff9ab0".as_slice());
    printed_words_are_read_back();
    Ok(())
}

#[test]
fn causes_have_their_order(rt: HostRuntime) {
    let order = [
        TextCause::NotText,
        TextCause::NoHeader,
        TextCause::BadWord,
        TextCause::BadNumber,
        TextCause::BadLane,
        TextCause::BusyCaller,
        TextCause::BlockTooLong,
        TextCause::TooMany,
        TextCause::OpenBlock,
        TextCause::OpenRound,
        TextCause::TooLong,
        TextCause::TooDeep,
    ];
    for pair in order.windows(2) {
        if let [one, other] = pair {
            assert_eq!(rt; first_of(*one, *other), *one);
            assert_eq!(rt; first_of(*other, *one), *one);
        }
    }
    fault_of_a_line_comes_first_in_the_order::<u8, u8>();
    fault_of_a_text_is_that_of_its_first_faulty_line::<u8>();
}

// The last line that was not passed over. The line `bad line` is a bad word, and in line 99 memory is lacking.
#[derive(Drop)]
struct LastLine {
    number: u32,
}

impl LineReader for LastLine {
    ghost use Rattle.std.specs.Prelude.{Ok, Err, codes, if◌then◌else◌};
    ghost use Rattle.bq_model.specs.declared.fault.TextCause.TheVariants.{BadWord};
    ghost use Rattle.text_lines.specs.Words.{is_header};

    ghost meaning = { λ number state words. if is_header (codes "bad") (codes "line") words then Err BadWord else Ok (record { number = number }) };

    fn line(&mut self, number: u32, words: Words) -> Result<(), LineRefused> {
        if is_header(words, b"bad", b"line") {
            return Err(LineRefused::Cause(TextCause::BadWord));
        }
        if number == 99 {
            return Err(LineRefused::from(OutOfMemory));
        }
        self.number = number;
        Ok(())
    }
}

#[test]
fn texts_are_read_up_to_their_first_fault(rt: HostRuntime) {
    let table: [(&[u8], Result<u32, (u32, TextCause)>); 12] = [
        (b"t 1", Ok(0)),
        (b" t  1 \n# a\n\n  \na\n#b", Ok(5)),
        (b"t 1\na\nb", Ok(3)),
        (b"", Err((1, TextCause::NoHeader))),
        (b"\n", Err((1, TextCause::NoHeader))),
        (b"# a\nt 1\n", Err((1, TextCause::NoHeader))),
        (b"t 1 1\n", Err((1, TextCause::NoHeader))),
        (b"t 2\r\n", Err((1, TextCause::NotText))),
        (b"t 1\na\nbad line\n\t", Err((3, TextCause::BadWord))),
        (b"t 1\n#\t\nbad line\n", Err((2, TextCause::NotText))),
        (
            b"t 1\n#bad line\n bad  line \nc",
            Err((3, TextCause::BadWord)),
        ),
        (b"t 1\nbad line line\n\x7f", Err((3, TextCause::NotText))),
    ];
    for (text, wanted) in table {
        let mut last = LastLine { number: 0 };
        let found = read_text(&mut last, b"t", b"1", text);
        match wanted {
            Ok(number) => {
                assert!(rt; found.is_ok(), "{text:?}");
                assert_eq!(rt; last.number, number, "{text:?}");
            }
            Err((line, cause)) => {
                let fault = TextRefused::Text(TextFault { line, cause });
                assert!(rt; found == Err(fault), "{text:?}");
            }
        }
    }
}

#[test]
fn most_bytes_are_16777216(rt: HostRuntime) -> Result<(), Fail> {
    let mut text = b"t 1\n#".to_vec(rt.alloc())?;
    text.resize(16_777_216, b' ')?;
    let mut last = LastLine { number: 0 };
    assert!(rt; read_text(&mut last, b"t", b"1", &text).is_ok());
    text.push(b'\t')?;
    let fault = TextRefused::Text(TextFault {
        line: 0,
        cause: TextCause::TooLong,
    });
    assert!(rt; read_text(&mut last, b"t", b"1", &text) == Err(fault));
    Ok(())
}
