//! Answers as texts.

use std::alloc::{AllocError, Global};
use th_accept::Refusal;
use th_meaning::{CoreClass, CoreInterface, CoreModule};
use th_tree::{ByteList, Name};
use th_type::{Place, What};

/// The letters of a name.
fn shown_name(alloc: Global, name: &Name) -> Result<String, AllocError> {
    let mut text = String::new(alloc);
    for byte in name.as_bytes() {
        text.push(char::from(*byte))?;
    }
    Ok(text)
}

/// The word for what is limited.
fn word_of(what: What) -> &'static str {
    match what {
        What::Name => "name",
        What::Params => "params",
        What::Formals => "formals",
        What::Where => "where",
        What::Nodes => "nodes",
        What::Locals => "locals",
        What::Module => "module",
        What::Literal => "literal",
        What::ProgramNodes => "nodes of the program",
        What::Tables => "tables",
        What::Exceptions => "exceptions",
        What::Code => "code",
        What::Bridges => "bridges",
        What::Text => "text",
    }
}

/// What was found at a place.
fn shown_at(alloc: Global, found: &str, place: Place) -> Result<String, AllocError> {
    let Place { text, at } = place;
    format!(in alloc; "text {text}: {found} at {at}")
}

/// That there is no interface of the name at a place.
fn shown_missing(alloc: Global, place: Place, name: &Name) -> Result<String, AllocError> {
    let name = shown_name(alloc, name)?;
    let text = place.text;
    format!(in alloc; "text {text}: missing interface {name}")
}

/// Why texts are refused.
pub fn shown_refusal(alloc: Global, refusal: &Refusal) -> Result<String, AllocError> {
    match refusal {
        Refusal::BadByte(place) => shown_at(alloc, "bad byte", *place),
        Refusal::WideNumber(place) => shown_at(alloc, "wide number", *place),
        Refusal::Syntax(place) => shown_at(alloc, "syntax", *place),
        Refusal::MissingInterface(place, name) => shown_missing(alloc, *place, name),
        Refusal::Rule { number, place } => {
            let found = format!(in alloc; "rule {number}")?;
            shown_at(alloc, &found, *place)
        }
        Refusal::TooLarge { what, count, place } => {
            let what = word_of(*what);
            let found = format!(in alloc; "too large {what} {count}")?;
            shown_at(alloc, &found, *place)
        }
        Refusal::Memory => format!(in alloc; "out of memory"),
    }
}

/// Puts a module's name, and behind it the names of its units in parentheses.
fn put_module(alloc: Global, text: &mut String, program: &CoreModule) -> Result<(), AllocError> {
    text.push(' ')?;
    text.push_str(&shown_name(alloc, &program.name)?)?;
    text.push_str(" (")?;
    let mut before = "";
    for unit in &program.units {
        text.push_str(before)?;
        text.push_str(&shown_name(alloc, &unit.name)?)?;
        before = " ";
    }
    text.push(')')
}

/// The names of modules, each with the names of its units.
pub fn shown_modules(alloc: Global, modules: &[CoreModule]) -> Result<String, AllocError> {
    let mut text = String::new(alloc);
    text.push_str("ok")?;
    for program in modules {
        put_module(alloc, &mut text, program)?;
    }
    Ok(text)
}

/// Puts the letters of bytes.
fn put_bytes(text: &mut String, bytes: &ByteList) -> Result<(), AllocError> {
    for byte in bytes.as_slice() {
        text.push(char::from(*byte))?;
    }
    Ok(())
}

/// Puts names, each with a blank before it.
fn put_names(alloc: Global, text: &mut String, names: &[Name]) -> Result<(), AllocError> {
    for name in names {
        text.push(' ')?;
        text.push_str(&shown_name(alloc, name)?)?;
    }
    Ok(())
}

/// Puts a line of an interface that a module keeps: its name and its canonical text.
fn put_interface(
    alloc: Global,
    text: &mut String,
    interface: &CoreInterface,
) -> Result<(), AllocError> {
    text.push_str("\n  interface ")?;
    text.push_str(&shown_name(alloc, &interface.name)?)?;
    text.push_str(": ")?;
    put_bytes(text, &interface.canonical)
}

/// Puts a line of a class that a module keeps: its full name, its head, the hidden methods that it introduces, and its own methods.
fn put_class(alloc: Global, text: &mut String, class: &CoreClass) -> Result<(), AllocError> {
    text.push_str("\n  class ")?;
    text.push_str(&shown_name(alloc, &class.head.name)?)?;
    text.push_str(": ")?;
    put_bytes(text, &class.text)?;
    text.push_str(" hidden")?;
    put_names(alloc, text, &class.hidden)?;
    text.push_str(" methods")?;
    put_names(alloc, text, &class.methods)
}

/// Puts what modules keep of their interfaces and of their classes.
pub fn put_parts(
    alloc: Global,
    text: &mut String,
    modules: &[CoreModule],
) -> Result<(), AllocError> {
    for program in modules {
        for interface in &program.interfaces {
            put_interface(alloc, text, interface)?;
        }
        for class in &program.classes {
            put_class(alloc, text, class)?;
        }
    }
    Ok(())
}
