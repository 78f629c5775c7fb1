//! The bytewise least of names.
ghost use Rattle.std.specs.Prelude.{◌≡◌};
ghost use Rattle.th_agree.specs.Names.{kept, lesser, lesser_of, stands_before};

/// Whether a name stands before another one, bytewise.
fn stands_before(a: &[u8], b: &[u8]) -> bool
    ensures { result ≡ stands_before a.now b.now }
{
    a.cmp(b).is_lt()
}

/// The lesser of two names.
fn lesser_name<'a>(old: &'a [u8], name: &'a [u8]) -> Option<&'a [u8]>
    ensures { kept result ≡ lesser (Some old.now) name.now }
{
    if stands_before(name, old) {
        Some(name)
    } else {
        Some(old)
    }
}

/// The lesser of the name that was kept and of a name.
pub(crate) fn lesser<'a>(least: Option<&'a [u8]>, name: &'a [u8]) -> Option<&'a [u8]>
    ensures { kept result ≡ lesser (kept least.entry) name.now }
{
    match least {
        None => Some(name),
        Some(old) => lesser_name(old, name),
    }
}

/// The lesser of two names that were kept.
pub(crate) fn lesser_of<'a>(least: Option<&'a [u8]>, other: Option<&'a [u8]>) -> Option<&'a [u8]>
    ensures { kept result ≡ lesser_of (kept least.entry) (kept other.entry) }
{
    match other {
        None => least,
        Some(name) => lesser(least, name),
    }
}
