//! What all modules of a program have in common.
use crate::places::Places;
use th_head_texts::HeadTokens;
use th_hier::{Hierarchy, Numbers};
use th_tree::{Interface, Tokens};

/// What all modules of a program have in common: the tokens of all texts, also as heads are found in them; the interfaces, each with the number of its text, their
/// names and their hierarchy; where the heads of their classes begin.
#[derive(Clone, Copy)]
pub(crate) struct Common<'a, 't, 'h> {
    pub(crate) tokens: &'a [Tokens<'t>],
    pub(crate) heads: &'a [HeadTokens<'h, 't>],
    pub(crate) texts: &'a [u32],
    pub(crate) interfaces: &'a [Interface],
    pub(crate) names: &'a Numbers,
    pub(crate) hierarchy: &'a Hierarchy,
    pub(crate) places: &'a Places,
}
