//! The key of a version.

ghost use Rattle.std.specs.Prelude.{◌≡◌, ◌++◌, [], ◌∷◌, IfOk, OnOk};
ghost use Rattle.std.specs.List.{flat_map};
ghost use Rattle.pep440_version.specs.Order.{stripped, class_of, pre_key, post_key};
ghost use Rattle.pep440_version.specs.Order.{absent_first, absent_last};
ghost use Rattle.pep440_key.specs.Key.{component_bytes, version_bytes};

use crate::components::{
    class, push_absent_first, push_absent_last, push_local, push_post, push_pre, push_release,
};
use crate::number::push_numbers;
use pep440_version::Version;
use std::alloc::{AllocError, Global};

/// Returns the sort key of a version: the keys of two versions compare byte by byte, as `memcmp` and `[u8]`
/// do, just as the versions do, and are equal exactly where these are, as those of `1.0` and `1`. No key is
/// a prefix of another version's, so that bytes may follow it, as the key of the next column.
///
/// Linear in the version; takes memory for the key, which has 14 bytes for `1.2.3`.
///
/// # Errors
///
/// `AllocError` when memory runs out.
pub fn version_key(alloc: Global, version: &Version) -> Result<Vec<u8>, AllocError>
    ensures { IfOk result (λ key. key.items ≡ version_bytes version.now) }
{
    let mut key = Vec::new(alloc);
    push_version(&mut key, version)?;
    Ok(key)
}

fn push_version(key: &mut Vec<u8>, version: &Version) -> Result<(), AllocError>
    ensures { OnOk result (key.new.items ≡ key.old.items ++ version_bytes version.now) }
{
    push_front(key, version)?;
    push_suffixes(key, version)?;
    push_local(key, version.local())?;
    key.push(0)?;
    Ok(())
}

/// Appends the epoch, the release and the version's rank within that release.
fn push_front(key: &mut Vec<u8>, version: &Version) -> Result<(), AllocError>
    ensures { OnOk result (key.new.items ≡ key.old.items ++ flat_map component_bytes
        ((version.now.epoch ∷ []) ∷ stripped version.now.release ∷ (class_of version.now ∷ []) ∷ [])) }
{
    push_numbers(key, &[version.epoch()])?;
    push_release(key, version.release())?;
    push_numbers(key, &[class(version)])
}

/// Appends what decides between versions of one release and one rank.
fn push_suffixes(key: &mut Vec<u8>, version: &Version) -> Result<(), AllocError>
    ensures { OnOk result (key.new.items ≡ key.old.items ++ flat_map component_bytes
        (pre_key version.now.pre ∷ post_key version.now.post version.now.most
        ∷ absent_first version.now.least ∷ absent_last version.now.dev ∷ [])) }
{
    push_pre(key, version.pre())?;
    push_post(key, version.post(), version.max())?;
    push_absent_first(key, version.min())?;
    push_absent_last(key, version.dev())
}
