//! The trees of texts.
ghost use Rattle.std.specs.Prelude.{◌≡◌, []};

use std::alloc::Global;
use th_tree::{Interface, Module, NameTable};

/// The trees of texts: the interfaces and the modules, each with the number of its text, and the numbers of the names in them.
#[derive(Drop)]
pub struct Trees {
    pub names: NameTable,
    pub interfaces: Vec<Interface>,
    pub interface_texts: Vec<u32>,
    pub modules: Vec<Module>,
    pub module_texts: Vec<u32>,
}

impl Trees {
    /// No trees.
    pub fn new(alloc: Global) -> Self
        ensures names { result.names ≡ [] }
        ensures interfaces { result.interfaces.items ≡ [] }
        ensures interface_texts { result.interface_texts.items ≡ [] }
        ensures modules { result.modules.items ≡ [] }
        ensures module_texts { result.module_texts.items ≡ [] }
    {
        Trees {
            names: NameTable::new(alloc),
            interfaces: Vec::new(alloc),
            interface_texts: Vec::new(alloc),
            modules: Vec::new(alloc),
            module_texts: Vec::new(alloc),
        }
    }
}
