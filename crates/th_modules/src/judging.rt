//! What the definitions of a module are judged by.
ghost use Rattle.std.specs.Prelude.{◌≡◌};
ghost use Rattle.th_tree.specs.DeclView.{module_of};
ghost use Rattle.th_module_rules.specs.Own.{all_items, module_visible};

use th_contexts::{Bases, ModuleEnv};
use th_heads::Found;
use th_hier::Numbers;
use th_scope::ClassItem;
use th_tree::Module;

/// What the definitions of a module are judged by: what is known in it, the items that are found by name there, what is asked of
/// classes, the numbers of the full names of the module's own classes, and the module.
#[derive(Clone, Copy)]
pub struct Judging<'a> {
    pub env: ModuleEnv<'a>,
    pub found: &'a Found<'a>,
    pub bases: &'a Bases,
    pub own: &'a Numbers,
    pub tree: &'a Module,
    pub ghost found_is: { found.now ≡ all_items env.names.now env.hierarchy.now.items (module_of tree.now) },
    pub ghost home_is: { env.home.now ≡ module_visible env.names.now (module_of tree.now) },
}

/// What a class is judged by: its module, and what is known of it.
#[derive(Clone, Copy)]
pub struct ClassFrame<'a> {
    pub judging: &'a Judging<'a>,
    pub class: &'a ClassItem,
}
