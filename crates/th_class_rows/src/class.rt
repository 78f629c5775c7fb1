//! A class by its head.
ghost use Rattle.std.specs.Prelude.{◌≡◌, option_map, IfOk};
ghost use Rattle.th_tree.specs.View.{named_of, option_of};
ghost use Rattle.th_tree.specs.DeclView.{class_head_of};
ghost use Rattle.th_type.specs.Declarations.{meant_of};
ghost use Rattle.th_hier.specs.Naming.{Items, Visible};
ghost use Rattle.th_hier.specs.Texts.{within};
ghost use Rattle.th_heads.specs.Classes.{meant_after};
ghost use Rattle.th_module_rules.specs.Inheriting.{class_row, inherited};
ghost use Rattle.th_inherits.specs.Rows.{inherited_of, row_of};

use std::alloc::{AllocError, Global};
use th_heads::{Found, Sight, walk_class_head};
use th_hier::Home;
use th_inherits::{Inherited, Row};
use th_tree::{ClassHead, NamedTree};
use th_type::{Meaning, Place};

/// What stands after `inherits`, and where.
fn inherited(named: &Option<NamedTree>, meaning: Option<Meaning>, text: u32) -> Option<Inherited>
    ensures { (items : Items) (v : Visible) → option_map meant_of meaning ≡ meant_after items v (option_of named_of named.now) → option_map inherited_of result ≡ inherited items v text (option_of named_of named.now) }
{
    match named {
        None => None,
        Some(named) => match meaning {
            None => None,
            Some(meaning) => Some(Inherited {
                meaning,
                place: Place {
                    text,
                    at: named.item.first.at,
                },
            }),
        },
    }
}

/// A class of a text by its head, with the number of its full name.
pub fn class_row(
    alloc: Global,
    head: &ClassHead,
    found: &Found<'_>,
    home: &Home,
    text: u32,
    full: u32,
) -> Result<Row, AllocError>
    ensures { IfOk result (λ r. row_of r ≡ class_row found.now (within home.now head.now.params.items) text full (class_head_of head.now)) }
{
    let mut ignored = None;
    let sight = Sight::of(alloc, home, &head.params)?;
    let meaning = walk_class_head(alloc, head, found, &sight, text, &mut ignored)?;
    Ok(Row {
        full,
        place: Place {
            text,
            at: head.name.at,
        },
        of_place: Place {
            text,
            at: head.of.item.first.at,
        },
        for_param: meaning.for_param,
        inherits: inherited(&head.inherits, meaning.inherits, text),
    })
}
