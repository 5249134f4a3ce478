//! The name of a file system's parent.
ghost use Rattle.std.specs.Prelude.{◌≡◌};
ghost use Rattle.std.specs.Option.{option_copied};
ghost use Rattle.base.specs.Names.{parent_of as parent_name};

/// The part of a name before its last `/`, which names the parent, or None where the name has a single component (zfs(8)). It costs the length
/// of the name.
pub fn parent_of(name: &[u8]) -> Option<&[u8]>
    ensures { option_copied result ≡ parent_name name.now }
{
    let mut end = name.len();
    while end > 0 {
        end -= 1;
        if name[end] == b'/' {
            return Some(&name[..end]);
        }
    }
    None
}
