//! The words of the command line, against docs/LANGUAGE.md, by hand.

use std::alloc::{AllocError, Global};
use std::test::Fail;
use th_words::{Command, command};

/// The words, separated by blanks in one text.
fn words_of(alloc: Global, text: &str) -> Result<Vec<String>, AllocError> {
    let mut words = Vec::new(alloc);
    for word in text.split(' ') {
        words.push(word.to_string(alloc)?)?;
    }
    Ok(words)
}

/// Words that are the command `go`, the name of its executable, and the names of its texts with blanks between them.
const GO: &[(&str, &str, &str)] = &[
    ("go a b", "a", "b"),
    ("go a b c", "a", "b c"),
    ("go a c b - c a", "a", "c b - c a"),
    ("go a b ", "a", "b "),
    ("go - -", "-", "-"),
    ("go a a", "a", "a"),
    ("go go run", "go", "run"),
    ("go a=b c--", "a=b", "c--"),
    ("go  b", "", "b"),
];

#[test]
fn go(rt: HostRuntime) -> Result<(), Fail> {
    for &(text, wanted_out, wanted_files) in GO {
        let words = words_of(rt.alloc(), text)?;
        let wanted = words_of(rt.alloc(), wanted_files)?;
        match command(&words) {
            Some(Command::Go { out, files }) => {
                assert_eq!(rt; out, wanted_out, "{text}");
                assert!(rt; files == wanted.as_slice(), "{text}");
            }
            _ => assert!(rt; false, "{text}"),
        }
    }
    Ok(())
}

/// How many files are named behind `go out`, and whether the words are a command.
const COUNTS: &[(u32, bool)] = &[(0, false), (1, true), (63, true), (64, true), (65, false)];

#[test]
fn counts(rt: HostRuntime) -> Result<(), Fail> {
    for &(count, wanted) in COUNTS {
        let mut words = words_of(rt.alloc(), "go out")?;
        for _file in 0..count {
            words.push("m.tm".to_string(rt.alloc())?)?;
        }
        assert_eq!(rt; command(&words).is_some(), wanted, "{count}");
    }
    Ok(())
}

/// Words that are the command `run` of the file `f`, the size of the region and the number of steps.
const RUN: &[(&str, u32, u64)] = &[
    ("run f", 1_048_576, 50_000_000),
    ("run -- f", 1_048_576, 50_000_000),
    ("run f --", 1_048_576, 50_000_000),
    ("run --region 4096 f", 4_096, 50_000_000),
    ("run --region=4096 f", 4_096, 50_000_000),
    ("run f --region=67108864", 67_108_864, 50_000_000),
    ("run f --region 4112", 4_112, 50_000_000),
    ("run --region 0000000004096 f", 4_096, 50_000_000),
    ("run --steps 0 f", 1_048_576, 0),
    ("run --steps=1099511627776 f", 1_048_576, 1_099_511_627_776),
    ("run --steps=0000000000005 f", 1_048_576, 5),
    ("run --steps 007 f --region=8192", 8_192, 7),
    ("run --region 8192 f --steps 7", 8_192, 7),
    ("run f --steps 7 --region 8192", 8_192, 7),
    ("run --steps=7 --region=8192 -- f", 8_192, 7),
    ("run --steps 7 -- f", 1_048_576, 7),
];

#[test]
fn run(rt: HostRuntime) -> Result<(), Fail> {
    for &(text, wanted_region, wanted_steps) in RUN {
        let words = words_of(rt.alloc(), text)?;
        match command(&words) {
            Some(
                Command::Run {
                    file,
                    region,
                    steps,
                },
            ) => {
                assert_eq!(rt;
                    (file, region, steps),
                    ("f", wanted_region, wanted_steps),
                    "{text}"
                );
            }
            _ => assert!(rt; false, "{text}"),
        }
    }
    Ok(())
}

/// Words that are the command `run` with the default numbers, and its file.
const FILES: &[(&str, &str)] = &[
    ("run -", "-"),
    ("run -- -", "-"),
    ("run -- --", "--"),
    ("run -- --steps", "--steps"),
    ("run -- --steps=5", "--steps=5"),
    ("run -- -x", "-x"),
    ("run run", "run"),
    ("run ", ""),
    ("run +5", "+5"),
    ("run steps=5", "steps=5"),
];

#[test]
fn files(rt: HostRuntime) -> Result<(), Fail> {
    for &(text, wanted) in FILES {
        let words = words_of(rt.alloc(), text)?;
        match command(&words) {
            Some(
                Command::Run {
                    file,
                    region: 1_048_576,
                    steps: 50_000_000,
                },
            ) => {
                assert_eq!(rt; file, wanted, "{text}");
            }
            _ => assert!(rt; false, "{text}"),
        }
    }
    Ok(())
}

/// Words that are no command.
const NONE: &[&str] = &[
    "",
    "GO a b",
    "go",
    "go a",
    "go -a b",
    "go a -b",
    "go a b -c",
    "go a b --",
    "go a b -- c",
    "headers a",
    "headers a b",
    "go -- b",
    "go -- a b",
    "go --steps=5 a b",
    " go a b",
    "running f",
    "run",
    "run --",
    "run f g",
    "run f -- g",
    "run -- f g",
    "run -- -- f",
    "run -f",
    "run --region f",
    "run f --region",
    "run f --steps",
    "run f --steps --region=4096",
    "run f --region --",
    "run f --region -",
    "run f --region 4095",
    "run f --region 4080",
    "run f --region 4097",
    "run f --region 67108880",
    "run f --region 67108865",
    "run f --region 0",
    "run f --region 00000000004096",
    "run f --region=4096 --region=4096",
    "run f --region 4096 --region=4096",
    "run f --region=4096x",
    "run f --region=0x1000",
    "run f --region=",
    "run f --regions=4096",
    "run f --region:4096",
    "run f -region=4096",
    "run f --steps=",
    "run f --steps=1099511627777",
    "run f --steps=9999999999999",
    "run f --steps=00000000000005",
    "run f --steps +5",
    "run f --steps=+5",
    "run f --steps=-5",
    "run f --steps -5",
    "run f --steps=5 --steps=5",
    "run f --steps 5 --region=4096 --steps 6",
    "run f --steps= 5",
    "run f --steps 5_0",
    "run f --stepsx=5",
    "run f --stepsx 5",
    "run f --step=5",
    "run f --Steps=5",
    "run f --steps=5=6",
    "run f --watch=0-1",
    "run f --=5",
];

#[test]
fn none(rt: HostRuntime) -> Result<(), Fail> {
    for text in NONE {
        let words = words_of(rt.alloc(), text)?;
        assert!(rt; command(&words).is_none(), "{text}");
    }
    assert!(rt; command(&[]).is_none());
    Ok(())
}
