//! Texts and their trees, against docs/LANGUAGE.md, by hand.
//!
//! A tree is shown as a text in which each operator stands in parentheses with its operands. So a text that is
//! written so is shown as itself.

use crate::show::Shower;
use std::alloc::Global;
use std::process::Abort;
use std::test::Fail;
use th_decl::{parse_interface, parse_module};
use th_lex::lex;
use th_parse::{ParseError, parse_body};
use th_tree::{NameTable, Tokens};

/// What a text is read as.
#[derive(Clone, Copy)]
pub enum Form {
    /// A module.
    M,
    /// An interface.
    I,
    /// Statements up to the first token that begins none, an `end` or nothing.
    S,
}

/// Statements as a text, with `end` behind them.
fn body_text(
    rt: &impl Abort,
    alloc: Global,
    tokens: &Tokens<'_>,
    places: bool,
) -> Result<Vec<u8>, ParseError> {
    assert!(rt; tokens.len() < 3_000_000 && tokens.text().len() < 3_000_000);
    let mut names = NameTable::new(alloc);
    let (body, last) = parse_body(alloc, tokens, &mut names, 0)?;
    assert!(rt; last < tokens.len());
    assert_eq!(rt; tokens.len() - last, 1);
    let mut shower = Shower::new(alloc, &names, places);
    shower.body(&body).map_err(|_| ParseError::Memory)?;
    shower.put("end").map_err(|_| ParseError::Memory)?;
    Ok(shower.into_text())
}

/// A module as a text.
fn module_text(
    rt: &impl Abort,
    alloc: Global,
    tokens: &Tokens<'_>,
    places: bool,
) -> Result<Vec<u8>, ParseError> {
    assert!(rt; tokens.len() < 3_000_000 && tokens.text().len() < 3_000_000);
    let mut names = NameTable::new(alloc);
    let module = parse_module(alloc, tokens, &mut names)?;
    let mut shower = Shower::new(alloc, &names, places);
    shower.module(&module).map_err(|_| ParseError::Memory)?;
    Ok(shower.into_text())
}

/// An interface as a text.
fn interface_text(
    rt: &impl Abort,
    alloc: Global,
    tokens: &Tokens<'_>,
    places: bool,
) -> Result<Vec<u8>, ParseError> {
    assert!(rt; tokens.len() < 3_000_000 && tokens.text().len() < 3_000_000);
    let mut names = NameTable::new(alloc);
    let interface = parse_interface(alloc, tokens, &mut names)?;
    let mut shower = Shower::new(alloc, &names, places);
    shower
        .interface(&interface)
        .map_err(|_| ParseError::Memory)?;
    Ok(shower.into_text())
}

/// What a text of this form is shown as.
pub fn shown(
    rt: &impl Abort,
    alloc: Global,
    form: Form,
    text: &[u8],
    places: bool,
) -> Result<Result<Vec<u8>, ParseError>, Fail> {
    assert!(rt; text.len() < 3_000_000);
    let tokens = lex(alloc, text)?;
    Ok(match form {
        Form::M => module_text(rt, alloc, &tokens, places),
        Form::I => interface_text(rt, alloc, &tokens, places),
        Form::S => body_text(rt, alloc, &tokens, places),
    })
}

/// Whether a text has a tree of this form.
pub fn accepted(
    rt: &impl Abort,
    alloc: Global,
    form: Form,
    text: &[u8],
) -> Result<Result<(), ParseError>, Fail> {
    assert!(rt; text.len() < 3_000_000);
    let tokens = lex(alloc, text)?;
    assert!(rt; tokens.len() < 3_000_000);
    let mut names = NameTable::new(alloc);
    Ok(match form {
        Form::M => parse_module(alloc, &tokens, &mut names).map(|_| ()),
        Form::I => parse_interface(alloc, &tokens, &mut names).map(|_| ()),
        Form::S => parse_body(alloc, &tokens, &mut names, 0).map(|_| ()),
    })
}

/// A text of this form is shown so.
fn is_shown(
    rt: &impl Abort,
    alloc: Global,
    form: Form,
    text: &str,
    places: bool,
    as_text: &str,
) -> Result<(), Fail> {
    let found = shown(rt, alloc, form, text.as_bytes(), places)??;
    assert_eq!(rt; found.as_slice(), as_text.as_bytes(), "{text}");
    Ok(())
}

/// Texts that are shown as themselves: each alternative of each form of the grammar, and each part
/// that may be left out with it and without it.
const SAME: &[(Form, &str)] = &[
    (Form::M, "module m; end"),
    (Form::M, "module m implements i; end"),
    (Form::M, "module m uses a; end"),
    (Form::M, "module m implements i uses a, b, c; end"),
    (Form::M, "module m; routine f() end end"),
    (
        Form::M,
        "module m; routine f() end class c for t; init() end end routine g() end end",
    ),
    (
        Form::M,
        "module m; routine f(a: int) returns (bool) return true; end end",
    ),
    (
        Form::M,
        "module m; routine f[T, U](a: T, b: U$V) signals(x, i$y) where T has m() break; end end",
    ),
    (Form::M, "module m; iter f() yields (int) yield 1; end end"),
    (
        Form::M,
        "module m; iter f[T](a: T) yields (T) signals(x) where T has m(int, T) returns (bool) signals(x, y), U has n() end end",
    ),
    (
        Form::M,
        "module m; class c for i$t[int] inherits i$d[bool, c]; init() end end end",
    ),
    (
        Form::M,
        "module m; class c[T, U] for t where T has m(T) returns (int), U has n(); field x: int; field y: array[T]; init(a: int, b: T) signals(x) super(); x := a; y := (a + 1); end end end",
    ),
    (
        Form::M,
        "module m; class c for t; init() super(1, x); end m() end hidden n(a: int) returns (int) return a; end iter o() yields (T) signals(x) end hidden iter p() yields (int) yield 1; end end end",
    ),
    (Form::I, "interface i; end"),
    (Form::I, "interface i uses a, b; end"),
    (
        Form::I,
        "interface i; exception x; exception y(array[int]); end",
    ),
    (Form::I, "interface i; type t; end end"),
    (
        Form::I,
        "interface i; type t[A, B] < u, v$w[A, array[B]]; m(); n(a: A, b: int) returns (B) signals(x); iter o() yields (int); iter p(a: int) yields (A) signals(x, y); end end",
    ),
    (
        Form::I,
        "interface i; type t; m() signals(x); n(a: int) signals(i$x, y); end end",
    ),
    (Form::I, "interface i; class c for t; init(); end end"),
    (
        Form::I,
        "interface i; class c[T] for t[T] inherits d[T] where T has m(); hidden m() returns (int); hidden iter n() yields (T); init(a: T) signals(x); end end",
    ),
    (
        Form::I,
        "interface i; routine f(); iter g[T](a: T) yields (T) signals(x) where T has m(); routine h[T](a: int) returns (T) signals(x) where T has m(int) signals(x), T has n() returns (T); end",
    ),
    (Form::S, "end"),
    (
        Form::S,
        "var a: int := 1; var b: bool := true; var c: string := \"\"; var d: t := x; end",
    ),
    (Form::S, "var a: array[array[i$t[int, u[bool]]]] := x; end"),
    (Form::S, "x; x := y; x.f := y; x[i] := y; f(x) := y; 1; end"),
    (Form::S, "if a then end end"),
    (Form::S, "if a then x; y; else z; end end"),
    (
        Form::S,
        "if a then x; elseif b then y; elseif c then z; end end",
    ),
    (Form::S, "if a then x; elseif b then y; else z; end w; end"),
    (
        Form::S,
        "if a then if b then x; else y; end elseif c then z; end end",
    ),
    (Form::S, "while a do x; y; end while b do end end"),
    (
        Form::S,
        "for x: int in f() do y; z; end for x: t[int] in (a + b) do end end",
    ),
    (Form::S, "break; return; return x; yield x; end"),
    (
        Form::S,
        "raise x; raise i$x; raise overflow; raise zero_divide; raise bounds; raise end_of_input; end",
    ),
    (Form::S, "raise x(y); raise i$x(y); raise overflow(y); end"),
    (Form::S, "begin except when x do end end"),
    (
        Form::S,
        "begin x; y; except when i$x(y: int) do z; w; when x do when overflow do when zero_divide do when bounds(z: t) do v; when end_of_input do end u; end",
    ),
    (Form::S, "put_byte(x); put_int(y); put_string(z); end"),
    (
        Form::S,
        "return (a or b); return (a and b); return (not a); end",
    ),
    (
        Form::S,
        "return (a = b); return (a ~= b); return (a == b); return (a < b); return (a <= b); return (a > b); return (a >= b); end",
    ),
    (
        Form::S,
        "return (a + b); return (a - b); return (a & b); return (a * b); return (a / b); return (a % b); return (-a); end",
    ),
    (
        Form::S,
        "return a.m(); return a.m(b, c); return a.f; return a.length; return a[b]; return a.f.m(b)[c].length; end",
    ),
    (
        Form::S,
        "return 7; return \"ab\"; return true; return false; return self; return get_byte(); end",
    ),
    (
        Form::S,
        "return super.m(); return super.m(a, b); return super.m().f; end",
    ),
    (
        Form::S,
        "return a; return i$a; return f{int}; return i$f{int, t[bool]}; end",
    ),
    (
        Form::S,
        "return f(); return f(a); return i$f(a, b, c); return f{int}(); return i$f{int, bool}(a, b); end",
    ),
    (
        Form::S,
        "return new c(); return new i$c(a); return new c[int, t](a, b); return new c().m(); end",
    ),
    (
        Form::S,
        "return new array[int](a, b); return new array[array[t]](1, 2)[3]; end",
    ),
    (
        Form::S,
        "return self.f; return self.m(); return self[a]; return 1.m(); return \"a\"[0]; return get_byte().f; end",
    ),
    (
        Form::S,
        "(a + b).m(); (a + b)[c] := d; (-a).f := d; (not a).length; end",
    ),
    (Form::S, "f((a + b), g((c * d)), (not e)); end"),
    (Form::S, "module1; end_; If; x_1 := y2; end"),
    (Form::S, "return 2147483647; return 0; end"),
];

#[test]
fn each_form(rt: HostRuntime) -> Result<(), Fail> {
    for &(form, text) in SAME {
        is_shown(&rt, rt.alloc(), form, text, false, text)?;
    }
    Ok(())
}

/// Expressions, and what they are shown as.
const GROUPS: &[(&str, &str)] = &[
    ("a or b or c", "((a or b) or c)"),
    ("a and b and c", "((a and b) and c)"),
    ("a or b and c or d", "((a or (b and c)) or d)"),
    ("(a or b) and c", "((a or b) and c)"),
    ("not not a", "(not (not a))"),
    ("not a = b", "(not (a = b))"),
    ("(not a) = b", "((not a) = b)"),
    ("not a and not b or c", "(((not a) and (not b)) or c)"),
    ("a and b = c", "(a and (b = c))"),
    ("a < b and c ~= d", "((a < b) and (c ~= d))"),
    (
        "a = b or c < d and not e",
        "((a = b) or ((c < d) and (not e)))",
    ),
    ("a + b <= c * d", "((a + b) <= (c * d))"),
    ("(a < b) == (c > d)", "((a < b) == (c > d))"),
    ("a + b - c & d", "(((a + b) - c) & d)"),
    ("a - b - c", "((a - b) - c)"),
    ("a - (b - c)", "(a - (b - c))"),
    ("a * b / c % d", "(((a * b) / c) % d)"),
    ("a + b * c - d / e", "((a + (b * c)) - (d / e))"),
    ("(a + b) * c", "((a + b) * c)"),
    ("- - a", "(-(-a))"),
    ("-a - -b", "((-a) - (-b))"),
    ("-a * -b", "((-a) * (-b))"),
    ("-a.m() + -b[c]", "((-a.m()) + (-b[c]))"),
    ("(((a)))", "a"),
    ("(a).f", "a.f"),
    ("((a) + (b))", "(a + b)"),
    (
        "a.f(b + c, (d))[e * f].length",
        "a.f((b + c), d)[(e * f)].length",
    ),
    (
        "new c[int](a or b, 1).m(- 1)",
        "new c[int]((a or b), 1).m((-1))",
    ),
    ("new array[t](n + 1, -1)", "new array[t]((n + 1), (-1))"),
];

#[test]
fn groups(rt: HostRuntime) -> Result<(), Fail> {
    let alloc = rt.alloc();
    for &(text, as_text) in GROUPS {
        let text = format!(in alloc; "return {text}; end")?;
        let as_text = format!(in alloc; "return {as_text}; end")?;
        is_shown(&rt, alloc, Form::S, &text, false, &as_text)?;
    }
    Ok(())
}

/// Texts that are shown otherwise than they are written.
const OTHERWISE: &[(Form, &str, &str)] = &[
    (Form::S, "if(a)then b;end end", "if a then b; end end"),
    (
        Form::S,
        "for x:int in(f())do end end",
        "for x: int in f() do end end",
    ),
    (
        Form::S,
        "(x):=1;((y));(a).f:=(b);end",
        "x := 1; y; a.f := b; end",
    ),
    (Form::S, "#a\nx#b\n:=\r\n\t1# c\n;end#", "x := 1; end"),
    (
        Form::S,
        "x := 007; y := 02147483647; end",
        "x := 7; y := 2147483647; end",
    ),
    (Form::S, "x := \"\\\\n\\\"\"; end", "x := \"\\n\"\"; end"),
    (Form::M, "module\nm\n;\nend\n", "module m; end"),
    (
        Form::I,
        "interface i;type t<a,b;end end",
        "interface i; type t < a, b; end end",
    ),
];

#[test]
fn written_otherwise(rt: HostRuntime) -> Result<(), Fail> {
    for &(form, text, as_text) in OTHERWISE {
        is_shown(&rt, rt.alloc(), form, text, false, as_text)?;
    }
    Ok(())
}

/// Texts, and what they are shown as with the places of their parts.
const PLACES: &[(Form, &str, &str)] = &[
    (Form::S, "x := (a); end", "0:0:0:x := 6:6:a; end"),
    (Form::S, "(f(x)); end", "0:1:1:f(3:3:x); end"),
    (Form::S, "(a).m(b); end", "0:0:1:1:a.4:m(6:6:b); end"),
    (
        Form::S,
        "return (a) + b; end",
        "0:return 7:(8:8:a + 13:13:b); end",
    ),
    (
        Form::S,
        "return ((a) + b); end",
        "0:return 8:(9:9:a + 14:14:b); end",
    ),
    (
        Form::S,
        "return a + b + c; end",
        "0:return 7:(7:(7:7:a + 11:11:b) + 15:15:c); end",
    ),
    (
        Form::S,
        "return (a or b) or c; end",
        "0:return 7:(8:(8:8:a or 13:13:b) or 19:19:c); end",
    ),
    (
        Form::S,
        "return not (a); end",
        "0:return 7:(not 12:12:a); end",
    ),
    (Form::S, "return -(a); end", "0:return 7:(-9:9:a); end"),
    (
        Form::S,
        "return (-a) * b; end",
        "0:return 7:(8:(-9:9:a) * 14:14:b); end",
    ),
    (
        Form::S,
        "return ((a))[b]; end",
        "0:return 7:9:9:a[13:13:b]; end",
    ),
    (
        Form::S,
        "return (a.b).c; end",
        "0:return 7:8:8:8:a.10:b.13:c; end",
    ),
    (
        Form::S,
        "f{array[int]}(false).length; end",
        "0:0:0:0:f{2:array[8:int]}(14:false).length; end",
    ),
    (
        Form::S,
        "var x: i$t[int] := new c(1); end",
        "0:var 4:x: 7:i$9:t[11:int] := 19:new 23:c(25:1); end",
    ),
    (
        Form::S,
        "x := super.m(self, true); end",
        "0:0:0:x := 5:super.11:m(13:self, 19:true); end",
    ),
    (
        Form::S,
        "x := new array[bool](\"a\", get_byte()); end",
        "0:0:0:x := 5:new array[15:bool](21:\"a\", 26:get_byte()); end",
    ),
    (
        Form::S,
        "if a then b; elseif c then else d; end end",
        "0:if 3:3:a then 10:10:10:b; 13:elseif 20:20:c then else 32:32:32:d; end end",
    ),
    (
        Form::S,
        "while a do break; end for x: t in f() do end return; end",
        "0:while 6:6:a do 11:break; end 22:for 26:x: 29:t in 34:34:f() do end 45:return; end",
    ),
    (
        Form::S,
        "begin x; except when i$y(z: int) do when bounds do end end",
        "0:begin 6:6:6:x; except 16:when 21:i$23:y(25:z: 28:int) do 36:when 41:bounds do end end",
    ),
    (
        Form::S,
        "raise x; raise overflow(y); yield z; put_int(w); end",
        "0:raise 6:x; 9:raise 15:overflow(24:24:y); 28:yield 34:34:z; 37:put_int(45:45:w); end",
    ),
    (
        Form::M,
        "module m implements i uses a, b; end",
        "0:module 7:m implements 20:i uses 27:a, 30:b; end",
    ),
    (
        Form::M,
        "module m; class c[T] for t inherits d where T has m(int); field x: T; init() super(); x := 1; end hidden iter n() yields (T) end o() end end end",
        "0:module 7:m; 10:class 16:c[18:T] for 25:t inherits 36:d where 44:T has 50:m(52:int); field 64:x: 67:T; 70:init() 77:super(); 86:x := 91:1; end 98:hidden 105:iter 110:n() yields (122:T) end 129:129:129:o() end end end",
    ),
    (
        Form::M,
        "module m; routine f(a: int) signals(x) end iter g() yields (int) end end",
        "0:module 7:m; 10:routine 18:f(20:a: 23:int) signals(36:x) end 43:iter 48:g() yields (60:int) end end",
    ),
    (
        Form::I,
        "interface i; exception x(int); type t < u; m(); iter n() yields (int); end routine f(); end",
        "0:interface 10:i; 13:exception 23:x(25:int); 31:type 36:t < 40:u; 43:43:m(); 48:iter 53:n() yields (65:int); end 75:routine 83:f(); end",
    ),
    (
        Form::I,
        "interface i; class c for t; hidden m(); init(); end end",
        "0:interface 10:i; 13:class 19:c for 25:t; hidden 35:35:m(); 40:init(); end end",
    ),
];

#[test]
fn places(rt: HostRuntime) -> Result<(), Fail> {
    for &(form, text, as_text) in PLACES {
        is_shown(&rt, rt.alloc(), form, text, true, as_text)?;
    }
    Ok(())
}
