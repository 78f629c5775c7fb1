//! `front_bench FORM FILE..`: cuts the text in a file into tokens and, where the form is `module` or `interface`, reads it
//! as one; it prints how many tokens and items there are. Where the form is `hierarchy`, it reads the interfaces in the files,
//! makes their hierarchy, and prints how many types they declare. Where it is `program`, it accepts the texts in the files, and
//! prints how many modules and units they have. In each case it prints why a text, the interfaces or the texts are refused.
#![tactic(auto)]

mod program;

use anyhow::{Result, bail, ensure};
use program::accepted;
use std::alloc::Global;
use std::{env, fs};
use th_decl::{parse_interface, parse_module};
use th_hier::{Hierarchy, has_room};
use th_lex::lex;
use th_tree::{Interface, NameTable, Tokens};

/// The most bytes of a text.
const MOST_BYTES: usize = 1_073_741_824;

/// How many items the text of the form has.
fn items(alloc: Global, form: &str, tokens: &Tokens<'_>) -> Result<usize> {
    ensure!(
        tokens.len() <= MOST_BYTES && tokens.text().len() <= MOST_BYTES,
        "the text is too long"
    );
    let mut names = NameTable::new(alloc);
    match form {
        "module" => Ok(parse_module(alloc, tokens, &mut names)?.items.len()),
        "interface" => Ok(parse_interface(alloc, tokens, &mut names)?.items.len()),
        "tokens" => Ok(0),
        _ => bail!("{form} is no form: module, interface, tokens, hierarchy or program"),
    }
}

/// How many tokens and items the text of the form has.
fn measured(alloc: Global, form: &str, text: &[u8]) -> Result<String> {
    ensure!(text.len() <= MOST_BYTES, "the text is too long");
    let tokens = lex(alloc, text)?;
    let items = items(alloc, form, &tokens)?;
    Ok(format!(in alloc; "{} tokens, {items} items", tokens.len())?)
}

/// The interface of a text.
fn interface(alloc: Global, names: &mut NameTable, text: &[u8]) -> Result<Interface> {
    ensure!(text.len() <= MOST_BYTES, "the text is too long");
    let tokens = lex(alloc, text)?;
    ensure!(
        tokens.len() <= MOST_BYTES && tokens.text().len() <= MOST_BYTES,
        "the text is too long"
    );
    ensure!(names.len() <= MOST_BYTES, "there are too many names");
    Ok(parse_interface(alloc, &tokens, names)?)
}

/// How many interfaces the texts are, and how many types they declare.
fn hierarchy(alloc: Global, texts: &[Vec<u8>]) -> Result<String> {
    let mut names = NameTable::new(alloc);
    let mut interfaces = Vec::new(alloc);
    for text in texts {
        interfaces.push(interface(alloc, &mut names, text)?)?;
    }
    ensure!(has_room(&names, &interfaces), "there are too many items");
    let types = Hierarchy::of(alloc, &mut names, &interfaces)?.heads().len();
    Ok(format!(in alloc; "{} interfaces, {types} types", interfaces.len())?)
}

/// What is printed of the texts.
fn answer(alloc: Global, form: &str, texts: &[Vec<u8>]) -> Result<String> {
    let Some(text) = texts.first() else {
        bail!("the words are FORM FILE..");
    };
    match form {
        "hierarchy" => hierarchy(alloc, texts),
        "program" => accepted(alloc, texts),
        _ => measured(alloc, form, text),
    }
}

fn main(rt: HostRuntime) -> Result<()> {
    let mut words = env::args(&rt)?.skip(1);
    let Some(form) = words.next() else {
        bail!("the words are FORM FILE..");
    };
    let mut texts = Vec::new(rt.alloc());
    for file in words {
        texts.push(fs::read(&rt, &file)?)?;
    }
    let answer = answer(rt.alloc(), &form, &texts)?;
    println!(rt; "{answer}")?;
    Ok(())
}
