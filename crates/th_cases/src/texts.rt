//! Interfaces that are given as texts, and types in them.

use anyhow::{Result, bail, ensure};
use std::alloc::Global;
use th_decl::parse_interface;
use th_hier::{Hierarchy, Scope, has_room, resolve};
use th_lex::lex;
use th_tree::{Interface, InterfaceItem, NameTable, TypeList, TypeTree};
use th_type::{NumberList, Ty};

/// The most bytes of a text, and the most names.
const MOST: usize = 1_000_000_000;

/// The interface of a text.
pub fn interface_of(alloc: Global, names: &mut NameTable, text: &str) -> Result<Interface> {
    ensure!(text.len() <= MOST, "the text is too long");
    let tokens = lex(alloc, text.as_bytes())?;
    ensure!(
        tokens.len() <= MOST && tokens.text().len() <= MOST && names.len() <= MOST,
        "there are too many names"
    );
    Ok(parse_interface(alloc, &tokens, names)?)
}

/// The interfaces of texts with `&` between them.
pub fn interfaces_of(alloc: Global, names: &mut NameTable, texts: &str) -> Result<Vec<Interface>> {
    let mut interfaces = Vec::new(alloc);
    for text in texts.split('&') {
        interfaces.push(interface_of(alloc, names, text)?)?;
    }
    Ok(interfaces)
}

/// The number of a name.
pub fn number_of(alloc: Global, names: &mut NameTable, name: &str) -> Result<u32> {
    ensure!(names.len() <= MOST, "there are too many names");
    Ok(names.number(alloc, name.as_bytes())?)
}

/// Interfaces, their names, and the hierarchy of the types that they declare.
#[derive(Drop)]
pub struct Types {
    pub names: NameTable,
    pub interfaces: Vec<Interface>,
    pub hierarchy: Hierarchy,
}

impl Types {
    /// The interfaces of texts, where they keep the rules.
    pub fn of(alloc: Global, texts: &str) -> Result<Types> {
        let mut names = NameTable::new(alloc);
        let interfaces = interfaces_of(alloc, &mut names, texts)?;
        ensure!(has_room(&names, &interfaces), "there are too many items");
        let hierarchy = Hierarchy::of(alloc, &mut names, &interfaces)?;
        Ok(Types {
            names,
            interfaces,
            hierarchy,
        })
    }

    /// The number of a name.
    pub fn number(&mut self, alloc: Global, name: &str) -> Result<u32> {
        number_of(alloc, &mut self.names, name)
    }

    /// The numbers of the names in a list with blanks between them.
    pub fn numbers(&mut self, alloc: Global, list: &str) -> Result<Vec<u32>> {
        let mut numbers = Vec::new(alloc);
        for name in list.split(' ') {
            if !name.is_empty() {
                numbers.push(self.number(alloc, name)?)?;
            }
        }
        Ok(numbers)
    }
}

/// What stands before a type in the text that `type_tree` reads.
const BEFORE: &str = "interface q; exception e(";

/// How many bytes stand before a type in the text that `type_tree` reads.
pub const OFFSET: u32 = 25;

/// The tree of a type.
pub fn type_tree(alloc: Global, names: &mut NameTable, text: &str) -> Result<TypeTree> {
    let whole = format!(in alloc; "{BEFORE}{text}); end")?;
    let mut interface = interface_of(alloc, names, &whole)?;
    match interface.items.pop() {
        Some(InterfaceItem::Exception(exception)) => match exception.argument {
            Some(tree) => Ok(tree),
            None => bail!("there is no type"),
        },
        _ => bail!("there is no type"),
    }
}

/// What can be seen in an item of the first interface with these type parameters.
pub fn scope_of(alloc: Global, types: &Types, params: Vec<u32>) -> Result<Scope> {
    let Some(interface) = types.interfaces.first() else {
        bail!("there is no interface");
    };
    let mut uses = Vec::new(alloc);
    for named in &interface.uses {
        uses.push(named.name)?;
    }
    Ok(Scope {
        text: Some(interface.name.name),
        implements: None,
        uses: NumberList::of(uses),
        params: NumberList::of(params),
    })
}

/// The type of a text in an item of the first interface with these type parameters.
pub fn type_of(alloc: Global, types: &mut Types, params: Vec<u32>, text: &str) -> Result<Ty> {
    let tree = type_tree(alloc, &mut types.names, text)?;
    let scope = scope_of(alloc, types, params)?;
    Ok(resolve(alloc, &types.hierarchy, &scope, &tree)?)
}

/// The types of trees, in an item of the first interface with these type parameters.
pub fn resolved(
    alloc: Global,
    types: &Types,
    params: Vec<u32>,
    trees: &TypeList,
) -> Result<Vec<Ty>> {
    let scope = scope_of(alloc, types, params)?;
    let mut list = Vec::new(alloc);
    let mut left = trees;
    while let TypeList::MoreType(first, rest) = left {
        list.push(resolve(alloc, &types.hierarchy, &scope, first)?)?;
        left = rest;
    }
    Ok(list)
}

/// The types of a list with commas, in an item of the first interface with these type parameters; none for a bar.
pub fn list_of(alloc: Global, types: &mut Types, params: Vec<u32>, list: &str) -> Result<Vec<Ty>> {
    if list == "-" {
        return Ok(Vec::new(alloc));
    }
    let tree = type_tree(alloc, &mut types.names, &format!(in alloc; "x[{list}]")?)?;
    match &tree {
        TypeTree::Named(_, trees) => resolved(alloc, types, params, trees),
        _ => bail!("there are no types"),
    }
}

/// The type parameters of the item in which questions ask about types.
const PARAMS: &str = "P Q";

/// A type in an item of the first interface with the type parameters `P` and `Q`.
pub fn asked_type(alloc: Global, types: &mut Types, text: &str) -> Result<Ty> {
    let params = types.numbers(alloc, PARAMS)?;
    type_of(alloc, types, params, text)
}

/// The types of a list with commas, in an item of the first interface with the type parameters `P` and `Q`.
pub fn asked_types(alloc: Global, types: &mut Types, list: &str) -> Result<Vec<Ty>> {
    let params = types.numbers(alloc, PARAMS)?;
    list_of(alloc, types, params, list)
}
