//! Lists of names.

ghost use Rattle.std.specs.Prelude.{◌≡◌, ◌++◌, IfOk, OnOk, position};
ghost use Rattle.std.specs.Str.{bytes_eq};
ghost use Rattle.descriptors.specs.Lists.{has_name, has_twice, without};

use mr_base::{Bytes, CloneIn, ListOf, Memory};
use std::alloc::Global;

/// Whether a name stands among these.
pub(crate) fn has_name(names: &[Bytes], name: &[u8]) -> bool
    ensures { result ≡ has_name names.now name.now }
{
    names.iter().any(|n| name == n.as_slice())
}

/// The place of a name among these.
pub(crate) fn place_of(names: &[Bytes], name: &[u8]) -> Option<usize>
    ensures { result ≡ position (bytes_eq name.now) names.now }
{
    names.iter().position(|n| name == n.as_slice())
}

/// Whether some name stands twice among these.
pub(crate) fn has_twice(names: &[Bytes]) -> bool
    ensures { result ≡ has_twice names.now }
{
    for (i, name) in names.iter().enumerate() {
        if has_name(&names[i + 1..], name.as_slice()) {
            return true;
        }
    }
    false
}

/// Copies of the other names.
pub(crate) fn without(alloc: Global, name: &[u8], names: &[Bytes]) -> Result<ListOf<Bytes>, Memory>
    ensures { IfOk result (λ others. others ≡ without name.now names.now) }
{
    let mut others = ListOf::new(alloc);
    push_without(alloc, &mut others, name, names)?;
    Ok(others)
}

/// Copies of the other names at the end of a list.
pub(crate) fn push_without(
    alloc: Global,
    list: &mut ListOf<Bytes>,
    name: &[u8],
    names: &[Bytes],
) -> Result<(), Memory>
    ensures { OnOk result (list.new ≡ list.old ++ without name.now names.now) }
{
    for n in names {
        if name != n.as_slice() {
            list.push(n.clone_in(alloc)?)?;
        }
    }
    Ok(())
}
