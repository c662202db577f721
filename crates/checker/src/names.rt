//! A set of names.
ghost use Rattle.std.specs.Prelude.{◌≡◌, ◌||◌, ℕ, List, OnOk};
ghost use Rattle.std.specs.Str.{bytes_eq};
ghost use Rattle.checker.specs.Keys.{has_key};

use std::alloc::AllocError;
use std::collections::BTreeMap;

/// A set of names: the keys of a map.
pub(crate) type Names<'a> = BTreeMap<&'a [u8], u8>;

/// Adds a name.
pub(crate) fn note<'a>(names: &mut Names<'a>, name: &'a [u8]) -> Result<(), AllocError>
    ensures { OnOk result ((other : List ℕ)
        → has_key names.new other ≡ (bytes_eq name.now other || has_key names.old other)) }
{
    names.insert(name, 0)?;
    Ok(())
}

/// Whether a name is in the set.
pub(crate) fn has_name(names: &Names<'_>, name: &[u8]) -> bool
    ensures { result ≡ has_key names.now name.now }
{
    names.get(name).is_some()
}
