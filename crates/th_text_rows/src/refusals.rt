//! Texts without trees, and trees of the greatest height, against docs/LANGUAGE.md, by hand.

use crate::trees::{Form, accepted};
use std::alloc::Global;
use std::process::Abort;
use std::test::Fail;
use th_parse::ParseError;

/// The byte where a text of this form is refused; `None` where it has a tree.
fn refusal(rt: &impl Abort, alloc: Global, form: Form, text: &[u8]) -> Result<Option<u32>, Fail> {
    match accepted(rt, alloc, form, text)? {
        Ok(()) => Ok(None),
        Err(ParseError::Syntax(at)) => Ok(Some(at)),
        Err(ParseError::Memory) => Err(ParseError::Memory.into()),
    }
}

/// A text of two parts is refused where the second begins.
fn is_refused(rt: &impl Abort, alloc: Global, form: Form, row: (&str, &str)) -> Result<(), Fail> {
    let (before, behind) = row;
    assert!(rt; before.len() < 1000);
    let text = format!(in alloc; "{before}{behind}")?;
    let found = refusal(rt, alloc, form, text.as_bytes())?;
    assert_eq!(rt; found, Some(before.len() as u32), "{before}|{behind}");
    Ok(())
}

/// Modules that are refused where the second part begins.
const MODULES: &[(&str, &str)] = &[
    ("", ""),
    ("#", ""),
    ("", "end"),
    ("", "; module m; end"),
    ("", "interface m; end"),
    ("module ", "; end"),
    ("module ", "1; end"),
    ("module m", ""),
    ("module m # c", ""),
    ("module m ", "end"),
    ("module m ", "m; end"),
    ("module m", "$n; end"),
    ("module m; ", ""),
    ("module m; ", "; end"),
    ("module m; end", "; "),
    ("module m; end ", "end"),
    ("module m; end ", "module m; end"),
    ("module m implements ", "; end"),
    ("module m implements a", ", b; end"),
    ("module m implements a", "$b; end"),
    ("module m implements a ", "implements b; end"),
    ("module m uses ", "; end"),
    ("module m uses a, ", "; end"),
    ("module m uses a ", "b; end"),
    ("module m uses a ", "implements b; end"),
    ("module m; ", "type t; end end"),
    ("module m; ", "exception x; end"),
    ("module m; ", "f() end end"),
    ("module m; ", "hidden f() end end"),
    ("module m; ", "var x: int := 1; end"),
    ("module m; routine ", "(); end end"),
    ("module m; routine ", "iter f() end end"),
    ("module m; routine f ", "end end"),
    ("module m; routine f(", ", a: int) end end"),
    ("module m; routine f(a", ") end end"),
    ("module m; routine f(a: int", "; b: int) end end"),
    ("module m; routine f(a: int, ", ") end end"),
    ("module m; routine f(a", ", b: int) end end"),
    ("module m; routine f[", "]() end end"),
    ("module m; routine f[", "int]() end end"),
    ("module m; routine f[T] ", "end end"),
    ("module m; routine f[T]", "[U]() end end"),
    ("module m; routine f() returns ", "int end end"),
    ("module m; routine f() returns (", ") end end"),
    ("module m; routine f() returns (int", ", int) end end"),
    ("module m; routine f() ", "yields (int) end end"),
    ("module m; routine f() ", "not a; end end"),
    ("module m; routine f() ", "-a; end end"),
    ("module m; routine f() ", "; end end"),
    ("module m; routine f() ", "routine g() end end"),
    ("module m; routine f() end", "; end"),
    ("module m; routine f() signals ", "x end end"),
    ("module m; routine f() signals (", ") end end"),
    ("module m; routine f() signals (x, ", ") end end"),
    ("module m; routine f() signals (", "overflow) end end"),
    (
        "module m; routine f() signals (x) ",
        "returns (int) end end",
    ),
    ("module m; routine f() signals (x) ", "signals (y) end end"),
    ("module m; iter f() ", "end end"),
    ("module m; iter f() ", "returns (int) end end"),
    ("module m; iter f() yields (int) ", "yields (int) end end"),
    ("module m; routine f[T]() where ", "end end"),
    ("module m; routine f[T]() where T ", "m() end end"),
    ("module m; routine f[T]() where T has ", "() end end"),
    ("module m; routine f[T]() where T has m ", "end end"),
    ("module m; routine f[T]() where T has m(a", ": int) end end"),
    ("module m; routine f[T]() where T has m(int, ", ") end end"),
    (
        "module m; routine f[T]() where T has m() ",
        "yields (int) end end",
    ),
    ("module m; routine f[T]() where T has m(), ", "end end"),
    (
        "module m; routine f[T]() where T has m() ",
        "where T has n() end end",
    ),
    ("module m; class c", "; init() end end end"),
    ("module m; class c for ", "int; init() end end end"),
    ("module m; class c for t", ", u; init() end end end"),
    ("module m; class c for t ", "init() end end end"),
    ("module m; class c for t inherits ", "; init() end end end"),
    ("module m; class c ", "inherits d for t; init() end end end"),
    (
        "module m; class c for t where T has m() ",
        "inherits d; init() end end end",
    ),
    ("module m; class c for t; ", "end end"),
    (
        "module m; class c for t; field ",
        ": int; init() end end end",
    ),
    ("module m; class c for t; field x", "; init() end end end"),
    (
        "module m; class c for t; field x: int",
        ", y: int; init() end end end",
    ),
];

/// Modules with a class that has fields, refused where the second part begins.
const CLASSES: &[(&str, &str)] = &[
    ("init", "; end end end"),
    ("init() ", "; end end end"),
    ("init() ", "returns (int) end end end"),
    ("init() ", "var x: int := 1; end end end"),
    ("init() ", "self.x := 1; end end end"),
    ("init() super", "; end end end"),
    ("init() super", ".m(); end end end"),
    ("init() super(1) ", "end end end"),
    ("init() super(); ", "super(); end end end"),
    ("init() x := 1; ", "super(); end end end"),
    ("init() x ", "= 1; end end end"),
    ("init() x", ".y := 1; end end end"),
    ("init() x := ", "; end end end"),
    ("init() x := 1 ", "end end end"),
    ("init() end ", "field x: int; end end"),
    ("init() end ", "init() end end end"),
    ("init() end ", "routine f() end end end"),
    ("init() end hidden ", "hidden m() end end end"),
    ("init() end hidden ", "end end"),
    ("init() end m", "; end end"),
    ("init() end m() ", "where T has n() end end end"),
    ("init() end m() end end end ", "end"),
    ("init() end m() end end", ""),
];

/// Interfaces that are refused where the second part begins.
const INTERFACES: &[(&str, &str)] = &[
    ("", ""),
    ("", "module i; end"),
    ("interface ", ""),
    ("interface ", "; end"),
    ("interface i ", "implements j; end"),
    ("interface i uses ", "; end"),
    ("interface i; end ", "end"),
    ("interface i; end", "; "),
    ("interface i; ", "m(); end"),
    ("interface i; ", "hidden m(); end"),
    ("interface i; exception ", "; end"),
    ("interface i; exception ", "overflow; end"),
    ("interface i; exception x ", "end"),
    ("interface i; exception x(", "); end"),
    ("interface i; exception x(int", ", int); end"),
    ("interface i; exception x(a", ": int); end"),
    ("interface i; type ", "; end end"),
    ("interface i; type t ", "end end"),
    ("interface i; type t[", "]; end end"),
    ("interface i; type t < ", "; end end"),
    ("interface i; type t < ", "int; end end"),
    ("interface i; type t < ", "array[int]; end end"),
    ("interface i; type t < u, ", "; end end"),
    ("interface i; type t < u ", "< v; end end"),
    ("interface i; type t < u ", "m(); end end"),
    ("interface i; type t < u[", "]; end end"),
    ("interface i; type t < u", "(int); end end"),
    ("interface i; type t; m() ", "end end"),
    ("interface i; type t; m", "; end end"),
    ("interface i; type t; ", "hidden m(); end end"),
    ("interface i; type t; ", "routine f(); end end"),
    ("interface i; type t; iter m()", "; end end"),
    (
        "interface i; type t; m() returns (int) ",
        "where T has m(); end end",
    ),
    (
        "interface i; class c for t; ",
        "field x: int; init(); end end",
    ),
    ("interface i; class c for t; ", "m(); init(); end end"),
    ("interface i; class c for t; ", "end end"),
    ("interface i; class c for t; init() ", "end end"),
    ("interface i; class c for t; init(); ", "m(); end end"),
    (
        "interface i; class c for t; init(); ",
        "hidden m(); end end",
    ),
    ("interface i; class c for t; init() ", "super(); end end"),
    ("interface i; class c for t; hidden m() ", "init(); end end"),
    ("interface i; routine f() ", "end"),
    ("interface i; iter f() yields (int) ", "yield 1; end end"),
];

/// Statements that are refused where the second part begins.
const STATEMENTS: &[(&str, &str)] = &[
    ("x := ", ""),
    ("x ", "end"),
    ("x ", "= 1;"),
    ("x ", "y;"),
    ("1 ", "+ 2;"),
    ("x := ", "; end"),
    ("x := ", ":= 1;"),
    ("x := 1 ", "end"),
    ("x := 1 ", ":= 2;"),
    ("x := 1 ", "2;"),
    ("x := ", "int;"),
    ("x := a + ", "; end"),
    ("x := ", "+ a;"),
    ("x := a < b ", "< c;"),
    ("x := a = b ", "~= c;"),
    ("x := a == ", "not b;"),
    ("x := 1 + ", "not true;"),
    ("x := - ", "not a;"),
    ("x := a and ", "or b;"),
    ("x := not ", "; end"),
    ("x := a * ", "* b;"),
    ("x := (a ", "; end"),
    ("x := (", ");"),
    ("x := (a", ", b);"),
    ("x := a ", ");"),
    ("x.", ";"),
    ("x.", "int;"),
    ("x.", "1;"),
    ("x.f", "{int};"),
    ("x.length", "();"),
    ("x.length ", "y;"),
    ("x[", "];"),
    ("x[1", ", 2];"),
    ("x[1", ";"),
    ("x$", ";"),
    ("x$y", "$z;"),
    ("x{", "};"),
    ("x{int", ";"),
    ("x{", "1};"),
    ("x{int}", "{int};"),
    ("f(", ", 1);"),
    ("f(1, ", ");"),
    ("f(1 ", "2);"),
    ("f()", "();"),
    ("f()", "{int};"),
    ("self", "();"),
    ("1", "(2);"),
    ("super", ";"),
    ("super", "(1);"),
    ("super.", "length;"),
    ("super.m", ";"),
    ("super.m", ".f;"),
    ("new ", "int();"),
    ("new c", ";"),
    ("new c", "{int}();"),
    ("new array", "(1, 2);"),
    ("new array[int]", "[1];"),
    ("new array[int](1", ");"),
    ("new array[int](1, 2", ", 3);"),
    ("get_byte", ";"),
    ("get_byte(", "1);"),
    ("put_byte ", "1;"),
    ("put_byte(", ");"),
    ("put_int(1", ", 2);"),
    ("put_string(x) ", "end"),
    ("var ", "int: int := 1;"),
    ("var x ", ":= 1;"),
    ("var x: int", ";"),
    ("var x: ", "1 := 1;"),
    ("var x: array ", ":= 1;"),
    ("var x: array[int", ", int] := 1;"),
    ("var x: int", "[int] := 1;"),
    ("var x: t[", "] := 1;"),
    ("var x", ", y: int := 1;"),
    ("if a ", "x; end"),
    ("if a ", "do x; end"),
    ("if a then else x; ", "elseif b then end"),
    ("if a then else ", "else end"),
    ("if a then x ", "end"),
    ("while a ", "then end"),
    ("for x ", "in f() do end"),
    ("for x: int ", ":= 1 do end"),
    ("for x: int in f() ", "+ 1 do end"),
    ("for x: int in ", "not a do end"),
    ("break ", "x;"),
    ("return x ", "y;"),
    ("yield ", ";"),
    ("raise ", ";"),
    ("raise overflow", "$x;"),
    ("raise x(", ");"),
    ("begin x; ", "end"),
    ("begin except ", "end"),
    ("begin except when x(", "int) do end"),
    ("begin except when x(y", ") do end"),
    ("begin except when x(y: int ", "do end"),
    ("begin except when ", "int do end"),
    ("begin except when x ", "then end"),
    ("begin except when x do y; ", "except when z do end"),
];

/// Each text of these is refused where its second part begins.
fn are_refused(
    rt: &impl Abort,
    alloc: Global,
    form: Form,
    rows: &[(&str, &str)],
) -> Result<(), Fail> {
    for &row in rows {
        is_refused(rt, alloc, form, row)?;
    }
    Ok(())
}

#[test]
fn refused(rt: HostRuntime) -> Result<(), Fail> {
    are_refused(&rt, rt.alloc(), Form::M, MODULES)?;
    are_refused(&rt, rt.alloc(), Form::I, INTERFACES)?;
    are_refused(&rt, rt.alloc(), Form::S, STATEMENTS)
}

#[test]
fn refused_classes(rt: HostRuntime) -> Result<(), Fail> {
    let alloc = rt.alloc();
    for &(before, behind) in CLASSES {
        let before = format!(in alloc; "module m; class c for t; {before}")?;
        is_refused(&rt, alloc, Form::M, (&before, behind))?;
    }
    Ok(())
}

/// Reserved words, each of which is no name.
const RESERVED: &str =
    "module interface implements uses type class for inherits where has exception routine iter init \
hidden field returns yields signals var if then elseif else end while do in break return yield raise begin except when \
new array int bool true false self super or and not length put_byte put_int get_byte overflow zero_divide bounds \
end_of_input string put_string";

#[test]
fn reserved(rt: HostRuntime) -> Result<(), Fail> {
    for word in RESERVED.split(' ') {
        is_refused(&rt, rt.alloc(), Form::M, ("module ", word))?;
        is_refused(&rt, rt.alloc(), Form::I, ("interface i uses ", word))?;
        is_refused(&rt, rt.alloc(), Form::S, ("x := a$", word))?;
    }
    Ok(())
}

/// A text around parts that are repeated: what stands before, an opening part, what stands in the middle, a closing
/// part, and what stands behind.
type Tower = [&'static str; 5];

/// The text of the tower with each part so many times.
fn built(alloc: Global, tower: &Tower, count: usize) -> Result<String, Fail> {
    let [before, open, middle, close, behind] = *tower;
    let mut text = before.to_string(alloc)?;
    for _part in 0..count {
        text.push_str(open)?;
    }
    text.push_str(middle)?;
    for _part in 0..count {
        text.push_str(close)?;
    }
    text.push_str(behind)?;
    Ok(text)
}

/// Where the tower with each part so many times is refused, counted from where the parts begin.
fn refused_at(
    rt: &impl Abort,
    alloc: Global,
    form: Form,
    tower: &Tower,
    count: usize,
) -> Result<Option<u32>, Fail> {
    let before = tower[0].len();
    assert!(rt; before < 1000);
    let text = built(alloc, tower, count)?;
    match refusal(rt, alloc, form, text.as_bytes())? {
        Some(at) => Ok(Some(at.saturating_sub(before as u32))),
        None => Ok(None),
    }
}

/// Towers, how often their parts may stand there, and where one more is refused.
const HEIGHTS: &[(Form, Tower, usize, u32)] = &[
    (
        Form::M,
        [
            "module m; class c for t; init() f := ",
            "(",
            "1",
            ")",
            "; end end end",
        ],
        599,
        599,
    ),
    (
        Form::M,
        [
            "module m; class c for t; init() super(",
            "(",
            "1",
            ")",
            "); end end end",
        ],
        599,
        599,
    ),
    (Form::S, ["x := ", "(", "1", ")", ";"], 598, 598),
    (Form::S, ["x := ", "not ", "a", "", ";"], 598, 598 * 4),
    (Form::S, ["x := ", "-", "a", "", ";"], 598, 598),
    (Form::S, ["x := a", "+b", "", "", ";"], 598, 598 * 2),
    (Form::S, ["x := a", " or b", "", "", ";"], 598, 598 * 5 + 1),
    (Form::S, ["x := a", "*b", "", "", " + c;"], 597, 597 * 2 + 3),
    (Form::S, ["x := a", ".f", "", "", ";"], 598, 598 * 2),
    (Form::S, ["x := a", ".m()", "", "", ";"], 598, 598 * 4),
    (Form::S, ["x := a", "[1]", "", "", ";"], 598, 598 * 3),
    (Form::S, ["x := a", "[a", "", "]", ";"], 598, 598 * 2),
    (Form::S, ["x := ", "f(", "", ")", ";"], 599, 599 * 2),
    (Form::S, ["x := ", "f(", "1", ")", ";"], 598, 599 * 2),
    (Form::S, ["x := ", "a.m(", "", ")", ";"], 598, 598 * 4 + 1),
    (Form::S, ["x := ", "new c(", "", ")", ";"], 598, 598 * 6),
    (
        Form::S,
        ["x := ", "(", "new c[t]()", ")", ";"],
        596,
        597 + 5,
    ),
    (
        Form::S,
        ["x := ", "(", "new array[t](1, 2)", ")", ";"],
        597,
        598,
    ),
    (Form::S, ["x := ", "(", "f{int}", ")", ";"], 597, 598 + 1),
    (Form::S, ["x := ", "(", "a.f", ")", ";"], 597, 598 + 1),
    (
        Form::S,
        ["", "begin ", "", "except when x do end ", ""],
        600,
        600 * 6,
    ),
    (
        Form::S,
        ["", "begin ", "raise x; ", "except when x do end ", ""],
        599,
        600 * 6,
    ),
    (
        Form::S,
        ["", "begin ", "raise x(1); ", "except when x do end ", ""],
        598,
        599 * 6 + 7,
    ),
    (
        Form::S,
        ["", "begin except when x do ", "", "end ", ""],
        600,
        600 * 23,
    ),
    (Form::S, ["", "if a then ", "", "end ", ""], 599, 599 * 10),
    (
        Form::S,
        ["", "if a then else ", "", "end ", ""],
        599,
        599 * 15,
    ),
    (Form::S, ["", "while a do ", "", "end ", ""], 599, 599 * 11),
    (
        Form::S,
        ["", "for x: t in f() do ", "", "end ", ""],
        599,
        599 * 19,
    ),
    (
        Form::M,
        [
            "module m; routine f() ",
            "begin ",
            "",
            "except when x do end ",
            "end end",
        ],
        600,
        600 * 6,
    ),
    (
        Form::S,
        ["var x: ", "array[", "int", "]", " := 1;"],
        598,
        598 * 6,
    ),
    (
        Form::S,
        ["var x: ", "t[", "u", "]", " := 1;"],
        598,
        598 * 2 + 1,
    ),
    (
        Form::I,
        ["interface i; exception x(", "array[", "int", "]", "); end"],
        599,
        599 * 6,
    ),
    (
        Form::I,
        ["interface i; type t < a", "[a", "", "]", "; end end"],
        599,
        599 * 2,
    ),
];

#[test]
fn heights(rt: HostRuntime) -> Result<(), Fail> {
    for &(form, tower, most, place) in HEIGHTS {
        assert!(rt; most < 1000);
        let name = tower[1];
        assert_eq!(rt;
            refused_at(&rt, rt.alloc(), form, &tower, most)?,
            None,
            "{name}"
        );
        assert_eq!(rt;
            refused_at(&rt, rt.alloc(), form, &tower, most + 1)?,
            Some(place),
            "{name}"
        );
    }
    Ok(())
}

/// Towers of many parts, how often their parts stand there, and where they are refused.
const LONG: &[(Form, Tower, usize, Option<u32>)] = &[
    (Form::S, ["", "x;", "", "", "end"], 20_000, None),
    (Form::S, ["x := f(1", ",1", "", "", ");"], 10_000, None),
    (
        Form::S,
        ["if a then ", "elseif b then x; ", "", "", "end"],
        10_000,
        None,
    ),
    (
        Form::S,
        ["begin except when x do ", "when y do z; ", "", "", "end"],
        10_000,
        None,
    ),
    (
        Form::S,
        ["var x: t[u", ",u", "", "", "] := 1;"],
        10_000,
        None,
    ),
    (Form::S, ["x := ", "(", "1", ")", ";"], 10_000, Some(598)),
    (Form::S, ["x := ", "(", "", "", ""], 598, Some(598)),
    (
        Form::S,
        ["", "begin ", "", "except when x do end ", ""],
        10_000,
        Some(3_600),
    ),
    (
        Form::M,
        ["module m; ", "routine f() end ", "", "", "end"],
        10_000,
        None,
    ),
    (
        Form::M,
        ["module m uses a", ",a", "", "", "; end"],
        10_000,
        None,
    ),
    (
        Form::M,
        [
            "module m; routine f[T",
            ",T",
            "](x: int",
            ", x: int",
            ") end end",
        ],
        5_000,
        None,
    ),
    (
        Form::M,
        [
            "module m; class c for t; init() ",
            "x := 1; ",
            "",
            "",
            "end end end",
        ],
        10_000,
        None,
    ),
    (Form::M, ["", ";", "", "", ""], 100_000, Some(0)),
    (
        Form::I,
        ["interface i; ", "type t; m(); end ", "", "", "end"],
        10_000,
        None,
    ),
    (
        Form::I,
        ["interface i; type t < a", ",a", "", "", "; end end"],
        10_000,
        None,
    ),
];

#[test]
fn long_texts(rt: HostRuntime) -> Result<(), Fail> {
    for &(form, tower, count, place) in LONG {
        let name = tower[1];
        assert_eq!(rt;
            refused_at(&rt, rt.alloc(), form, &tower, count)?,
            place,
            "{name}"
        );
    }
    Ok(())
}
