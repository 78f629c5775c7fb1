//! What a unit returns and yields, by its signature.
ghost use Rattle.std.specs.Prelude.{◌≡◌, option_map};
ghost use Rattle.th_type.specs.Signatures.{sig_of};
ghost use Rattle.th_type.specs.Types.{ty_of};
ghost use Rattle.th_stmt_rules.specs.Bodies.{result_of, yielded_of};

use th_type::{Sig, Ty};

/// What a unit of the signature returns: only a procedure may return something.
pub fn result_of(sig: &Sig) -> Option<&Ty>
    ensures { option_map (λ t. ty_of t.now) result ≡ result_of (sig_of sig.now) }
{
    if sig.iterator {
        return None;
    }
    match &sig.gives {
        None => None,
        Some(gives) => Some(gives),
    }
}

/// What a unit of the signature yields.
pub fn yielded_of(sig: &Sig) -> Option<&Ty>
    ensures { option_map (λ t. ty_of t.now) result ≡ yielded_of (sig_of sig.now) }
{
    if !sig.iterator {
        return None;
    }
    match &sig.gives {
        None => None,
        Some(gives) => Some(gives),
    }
}
