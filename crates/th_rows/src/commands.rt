//! The top call over files and streams in memory, against docs/LANGUAGE.md, by hand.

use crate::samples::GREETING;
use std::alloc::{AllocError, Global};
use std::process::Abort;
use std::test::Fail;
use th_top::theta;
use th_world::{MemFiles, MemSink, MemSource};

/// The files and streams of a call: the text of `m.tm`, further files, how many writes there is room for, and the
/// numbers of the calls that fail of the output and of the report.
#[derive(Clone, Copy)]
struct Given<'a> {
    text: &'a [u8],
    others: &'a [(&'a str, &'a [u8])],
    spare: u32,
    output_fails: &'a [u64],
    report_fails: &'a [u64],
}

/// Nothing fails.
fn nothing_fails(text: &[u8]) -> Given<'_> {
    Given {
        text,
        others: &[],
        spare: 9,
        output_fails: &[],
        report_fails: &[],
    }
}

/// The answer of a call: its status, the output, the report and how many files were written.
type Answer<'a> = (u8, &'a [u8], &'a [u8], u32);

/// The top call with these words has this answer. It gives the files that the call left.
fn answers(
    rt: &impl Abort,
    alloc: Global,
    words: &[&str],
    given: &Given<'_>,
    answer: Answer<'_>,
) -> Result<MemFiles, Fail> {
    let mut list = Vec::new(alloc);
    for word in words {
        list.push(word.to_string(alloc)?)?;
    }
    let mut contents = vec![in alloc; ("m.tm".to_string(alloc)?, given.text.to_vec(alloc)?)]?;
    for &(name, text) in given.others {
        contents.push((name.to_string(alloc)?, text.to_vec(alloc)?))?;
    }
    let mut files = MemFiles::new(alloc, contents, given.spare, Vec::new(alloc))?;
    let mut input = MemSource::new(Vec::new(alloc), Vec::new(alloc));
    let mut output = MemSink::new(alloc, 5_000, given.output_fails.to_vec(alloc)?)?;
    let mut report = MemSink::new(alloc, 50, given.report_fails.to_vec(alloc)?)?;
    let status = theta(
        alloc,
        &list,
        &mut files,
        &mut input,
        &mut output,
        &mut report,
    );
    let found = (status, output.bytes(), report.bytes(), files.written());
    assert_eq!(rt; found, answer);
    Ok(files)
}

const COMMAND: [&str; 3] = ["go", "out", "m.tm"];

const NOT_BUILT: Answer<'static> = (3, b"", b"m.tm: not built\n", 0);

/// Texts of `m.tm`, and the answers of `go out m.tm`.
const TEXTS: [(&[u8], Answer<'static>); 16] = [
    (b"module m; routine main() end end", (0, b"", b"", 1)),
    (
        b"module hello; routine main() put_byte(72); end end",
        (0, b"H", b"", 1),
    ),
    (
        b"#a\nmodule\tm;\rroutine main( )put_byte (0255);put_byte(0) ; end end#",
        (0, b"\xff\0", b"", 1),
    ),
    (
        b"module n12345678901234567890123456789012345678901234567890123456789012_; routine main() end end",
        (0, b"", b"", 1),
    ),
    (
        b"module n12345678901234567890123456789012345678901234567890123456789012_5; routine main() end end",
        (3, b"", b"m.tm: too large name 65 at 7\n", 0),
    ),
    (
        b"module m; routine main() put_byte(256); end end",
        NOT_BUILT,
    ),
    (
        b"module m; routine main() while true do put_byte(46); end end end",
        NOT_BUILT,
    ),
    (b"interface i; end", NOT_BUILT),
    (
        b"module m; routine main() end end end",
        (3, b"", b"m.tm: syntax at 33\n", 0),
    ),
    (
        b"module m; routine main() end",
        (3, b"", b"m.tm: syntax at 28\n", 0),
    ),
    (b"module m; ?", (3, b"", b"m.tm: bad byte at 10\n", 0)),
    (b"", (3, b"", b"m.tm: syntax at 0\n", 0)),
    (
        b"module m; routine main() put_int(2147483648); end end",
        (3, b"", b"m.tm: wide number at 33\n", 0),
    ),
    (
        b"module m; routine main() x := 1; end end",
        (3, b"", b"m.tm: rule 4 at 25\n", 0),
    ),
    (
        b"module m uses e; routine main() end end",
        (3, b"", b"m.tm: missing interface e\n", 0),
    ),
    (
        b"module m; routine main() put_byte(?); end end",
        (3, b"", b"m.tm: bad byte at 34\n", 0),
    ),
];

#[test]
fn texts(rt: HostRuntime) -> Result<(), Fail> {
    for &(text, answer) in &TEXTS {
        answers(&rt, rt.alloc(), &COMMAND, &nothing_fails(text), answer)?;
    }
    Ok(())
}

const NO_COMMAND: Answer<'static> = (1, b"", b"words\n", 0);

/// Words, and their answers.
const WORDS: [(&[&str], Answer<'static>); 13] = [
    (&[], NO_COMMAND),
    (&["go", "out"], NO_COMMAND),
    (&["Go", "out", "m.tm"], NO_COMMAND),
    (&["go", "-x", "m.tm"], NO_COMMAND),
    (&["go", "out", "-m"], NO_COMMAND),
    (&["go", "out", "m.tm", "-m"], NO_COMMAND),
    (&["headers", "m.tm"], NO_COMMAND),
    (&["run"], NO_COMMAND),
    (&["run", "--region", "4095", "m.tm"], NO_COMMAND),
    (&["run", "--steps=1", "--steps=1", "m.tm"], NO_COMMAND),
    (&["go", "-", "m.tm"], (0, b"", b"", 1)),
    (&["run", "m.tm"], (5, b"", b"m.tm: bad elf length\n", 0)),
    (&["go", "out", "absent"], (2, b"", b"file absent\n", 0)),
];

#[test]
fn words(rt: HostRuntime) -> Result<(), Fail> {
    let given = nothing_fails(b"module m; routine main() end end");
    for &(words, answer) in &WORDS {
        answers(&rt, rt.alloc(), words, &given, answer)?;
    }
    Ok(())
}

/// The files beside `m.tm`.
const OTHERS: [(&str, &[u8]); 5] = [
    ("e.ti", b"interface e; exception x; end"),
    ("i.ti", b"interface i; end"),
    ("n.tm", b"module n; routine main() end end"),
    ("bad.tm", b"module b; ?"),
    ("main.tm", b"module k; routine main() end end"),
];

/// The text of `m.tm`, the words, and the answers.
const PROGRAMS: [(&[u8], &[&str], Answer<'static>); 14] = [
    (
        b"module m uses e; routine main() raise e$x; end end",
        &["go", "out", "e.ti", "m.tm"],
        (3, b"", b"m.tm: rule 30 at 32\n", 0),
    ),
    (
        b"module m uses e; routine main() raise e$x; end end",
        &["go", "out", "m.tm", "e.ti"],
        (3, b"", b"m.tm: rule 30 at 32\n", 0),
    ),
    (
        b"module m uses e; routine main() signals (e$x) raise e$x; end end",
        &["go", "out", "e.ti", "m.tm"],
        (3, b"", b"e.ti: not built\n", 0),
    ),
    (
        b"module m uses e; routine main() signals (e$x) raise e$x; end end",
        &["go", "out", "m.tm", "e.ti"],
        NOT_BUILT,
    ),
    (
        b"module m uses e; routine main() signals (e$x) raise e$x; end end",
        &["go", "out", "m.tm", "i.ti"],
        (3, b"", b"m.tm: missing interface e\n", 0),
    ),
    (
        b"",
        &["go", "out", "i.ti", "i.ti"],
        (3, b"", b"i.ti: rule 1 at 10\n", 0),
    ),
    (
        b"module m; routine main() end end",
        &["go", "out", "m.tm", "n.tm"],
        (3, b"", b"n.tm: not built\n", 0),
    ),
    (
        b"module m; routine main() end end",
        &["go", "out", "n.tm", "m.tm"],
        NOT_BUILT,
    ),
    (
        b"module m; routine main() while true do end end end",
        &["go", "out", "m.tm", "bad.tm"],
        (3, b"", b"bad.tm: bad byte at 10\n", 0),
    ),
    (
        b"module m; routine main() x := 1; end end",
        &["go", "out", "m.tm", "bad.tm"],
        (3, b"", b"bad.tm: bad byte at 10\n", 0),
    ),
    (
        b"module m; routine main() x := 1; end end",
        &["go", "out", "m.tm", "bad.tm", "absent"],
        (2, b"", b"file absent\n", 0),
    ),
    (
        b"",
        &["go", "out", "gone", "absent"],
        (2, b"", b"file gone\n", 0),
    ),
    (b"", &["go", "out", "main.tm"], (0, b"", b"", 1)),
    (b"", &["go", "m.tm", "main.tm"], (0, b"", b"", 1)),
];

#[test]
fn programs(rt: HostRuntime) -> Result<(), Fail> {
    for &(text, words, answer) in &PROGRAMS {
        let given = Given {
            others: &OTHERS,
            ..nothing_fails(text)
        };
        answers(&rt, rt.alloc(), words, &given, answer)?;
    }
    Ok(())
}

/// Code of 20 bytes in place of that of `GREETING`, or less of it, the words, and the answers.
const RUNS: [(&[u8], &[&str], Answer<'static>); 9] = [
    (
        b"\x13\x05\x80\x04\x93\x08\x10\0\x73\0\0\0\x93\x08\x30\0\x73\0\0\0",
        &["run", "m.tm"],
        (0, b"H", b"", 0),
    ),
    (
        b"\x13\x05\x80\x04\x93\x08\x10\0\x73\0\0\0\x93\x08\x30\0\x73\0\0\0",
        &["run", "m.tm", "--region=4096", "--steps", "4"],
        (8, b"H", b"steps\n", 0),
    ),
    // A loop of one instruction.
    (
        b"\x6f\0\0\0\0\0\0\0\0\0\0\0\0\0\0\0\0\0\0\0",
        &["run", "--steps=1000", "--", "m.tm"],
        (8, b"", b"steps\n", 0),
    ),
    (
        b"\0\0\0\0\0\0\0\0\0\0\0\0\0\0\0\0\0\0\0\0",
        &["run", "m.tm"],
        (10, b"", b"trap illegal at 00010000\n", 0),
    ),
    // jalr zero, 2(zero)
    (
        b"\x67\0\x20\0\0\0\0\0\0\0\0\0\0\0\0\0\0\0\0\0",
        &["run", "m.tm"],
        (10, b"", b"trap jump at 00010000\n", 0),
    ),
    // addi a7, zero, 5; ecall
    (
        b"\x93\x08\x50\0\x73\0\0\0\0\0\0\0\0\0\0\0\0\0\0\0",
        &["run", "m.tm"],
        (7, b"", b"room\n", 0),
    ),
    // lui a0, 16; addi a0, a0, 20; addi a1, zero, 0; addi a7, zero, 4; ecall
    (
        b"\x37\x05\x01\0\x13\x05\x45\x01\x93\x05\0\0\x93\x08\x40\0\x73\0\0\0",
        &["run", "m.tm"],
        (6, b"", b"exception \n", 0),
    ),
    (
        b"\x73\0\0\0",
        &["run", "m.tm"],
        (5, b"", b"m.tm: bad elf segment\n", 0),
    ),
    (b"", &["run", "absent"], (2, b"", b"file absent\n", 0)),
];

#[test]
fn runs(rt: HostRuntime) -> Result<(), Fail> {
    for &(code, words, answer) in &RUNS {
        let mut file = GREETING[..84].to_vec(rt.alloc())?;
        file.extend_from_slice(code)?;
        answers(&rt, rt.alloc(), words, &nothing_fails(&file), answer)?;
    }
    Ok(())
}

#[test]
fn executable(rt: HostRuntime) -> Result<(), Fail> {
    let given = nothing_fails(b"module m; routine main() end end");
    let files = answers(&rt, rt.alloc(), &COMMAND, &given, (0, b"", b"", 1))?;
    let file = files.get("out").expect(&rt, "a file");
    assert!(rt; file.starts_with(&GREETING[..52]));
    Ok(())
}

/// How many writes there is room for, the calls of the output that fail, and the answer.
const FAULTS: [(u32, &[u64], Answer<'static>); 4] = [
    (9, &[], (0, b"H", b"", 1)),
    (9, &[0], (11, b"", b"stream\n", 1)),
    (9, &[1], (0, b"H", b"", 1)),
    (0, &[], (2, b"", b"file out\n", 0)),
];

#[test]
fn faults(rt: HostRuntime) -> Result<(), Fail> {
    for &(spare, output_fails, answer) in &FAULTS {
        let given = Given {
            text: b"module hello; routine main() put_byte(72); end end",
            others: &[],
            spare,
            output_fails,
            report_fails: &[],
        };
        answers(&rt, rt.alloc(), &COMMAND, &given, answer)?;
    }
    Ok(())
}

/// The call of the report that fails, and what the report has of `words`.
const REPORTS: [(u64, &[u8]); 2] = [(0, b""), (3, b"wor")];

#[test]
fn failing_report(rt: HostRuntime) -> Result<(), Fail> {
    for &(number, report) in &REPORTS {
        let given = Given {
            text: b"",
            others: &[],
            spare: 9,
            output_fails: &[],
            report_fails: &[number],
        };
        answers(&rt, rt.alloc(), &[], &given, (1, b"", report, 0))?;
    }
    Ok(())
}

/// The text of a module with so many statements.
fn long_text(alloc: Global, count: u32) -> Result<Vec<u8>, AllocError> {
    let mut text = b"module m; routine main()".to_vec(alloc)?;
    for _statement in 0..count {
        text.extend_from_slice(b" put_byte(7);")?;
    }
    text.extend_from_slice(b" end end")?;
    Ok(text)
}

#[test]
fn many_statements(rt: HostRuntime) -> Result<(), Fail> {
    let text = long_text(rt.alloc(), 4_999)?;
    let put = vec![in rt.alloc(); 7; 4_999]?;
    answers(
        &rt,
        rt.alloc(),
        &COMMAND,
        &nothing_fails(&text),
        (0, &put, b"", 1),
    )?;
    let text = long_text(rt.alloc(), 5_000)?;
    answers(
        &rt,
        rt.alloc(),
        &COMMAND,
        &nothing_fails(&text),
        (3, b"", b"m.tm: too large nodes 10001 at 10\n", 0),
    )?;
    Ok(())
}
