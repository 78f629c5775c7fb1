//! The questions of a file of cases.

use crate::calls::{candidates, supplies};
use crate::judged::judged;
use crate::layouts::answered;
use crate::lookups::{
    heads, is_subtype, method, methods, params, supers_first, supertypes, written,
};
use crate::meanings::meant;
use crate::repeats::written_out;
use crate::texts::Types;
use anyhow::{Result, bail};
use std::alloc::Global;

/// What is asked of interfaces that keep the rules, and of classes for them.
#[derive(Clone, Copy)]
enum Topic {
    Heads,
    Order,
    Params,
    Supertypes,
    Written,
    Methods,
    Method,
    Subtype,
    Means,
    Call,
    Candidates,
    Layout,
}

/// The topic of a word.
fn topic_of(word: &str) -> Option<Topic> {
    match word {
        "heads" => Some(Topic::Heads),
        "order" => Some(Topic::Order),
        "params" => Some(Topic::Params),
        "supertypes" => Some(Topic::Supertypes),
        "written" => Some(Topic::Written),
        "methods" => Some(Topic::Methods),
        "method" => Some(Topic::Method),
        "subtype" => Some(Topic::Subtype),
        "means" => Some(Topic::Means),
        "call" => Some(Topic::Call),
        "candidates" => Some(Topic::Candidates),
        "dump" | "layout" | "words" | "sum" | "size" => Some(Topic::Layout),
        "slot" | "cast" | "view" | "field" | "narrowed" => Some(Topic::Layout),
        _ => None,
    }
}

/// What the hierarchy knows of a declared type.
fn of_type(alloc: Global, types: &mut Types, topic: Topic, name: &str) -> Result<String> {
    let head = types.number(alloc, name)?;
    match topic {
        Topic::Params => Ok(params(alloc, types, head)?),
        Topic::Supertypes => Ok(supertypes(alloc, types, head)?),
        Topic::Written => Ok(written(alloc, types, head)?),
        _ => Ok(methods(alloc, types, head)?),
    }
}

/// The answer to what is asked of interfaces and of classes in lines.
fn asked(
    alloc: Global,
    types: &mut Types,
    lines: &str,
    topic: Topic,
    what: &str,
    rest: &str,
) -> Result<String> {
    match topic {
        Topic::Heads => Ok(heads(alloc, types)?),
        Topic::Order => Ok(supers_first(alloc, types)?),
        Topic::Method => method(alloc, types, rest),
        Topic::Subtype => is_subtype(alloc, types, rest),
        Topic::Means => meant(alloc, types, rest),
        Topic::Call => supplies(alloc, types, rest),
        Topic::Candidates => candidates(alloc, types, rest),
        Topic::Layout => answered(alloc, types, lines, what, rest),
        _ => of_type(alloc, types, topic, rest),
    }
}

/// The answer to a question about interfaces that keep the rules.
fn looked_up(alloc: Global, brief: &str, lines: &str, what: &str, rest: &str) -> Result<String> {
    let Some(topic) = topic_of(what) else {
        bail!("{what} is no question");
    };
    let lines = written_out(alloc, lines)?;
    let mut types = Types::of(alloc, &written_out(alloc, brief)?)?;
    asked(alloc, &mut types, &lines, topic, what, rest)
}

/// The answer to a question about the interfaces in a text and the classes in lines.
pub fn answer(alloc: Global, brief: &str, lines: &str, question: &str) -> Result<String> {
    let question = written_out(alloc, question)?;
    let (what, rest) = question.split_once(' ').unwrap_or((&question, ""));
    if what != "rule" {
        return looked_up(alloc, brief, lines, what, rest);
    }
    if rest.is_empty() {
        judged(alloc, &written_out(alloc, brief)?)
    } else {
        judged(alloc, rest)
    }
}
