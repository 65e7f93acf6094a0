//! The versions at the front of stored bytes: that of the format, and those of the rows of the five indexes.
ghost use Rattle.std.specs.Prelude.{◌≡◌, ◌≤◌, length, take};
ghost use Rattle.index_store.specs.Reading.{other_version, other_version_from};

/// The place and the value of the first of the versions that is another than 1.
#[tactic(auto, unfolding(crate::specs::Reading::other_version))]
pub(crate) fn other_version(bytes: &[u8]) -> Option<(usize, u8)>
    ensures { result ≡ other_version bytes.now }
{
    first_other(front(bytes))
}

/// The place and the value of the first byte that is another than 1.
fn first_other(versions: &[u8]) -> Option<(usize, u8)>
    requires { length versions.now ≤ 6 }
    ensures { result ≡ other_version_from 0 versions.now }
{
    let mut left = versions;
    let mut at = 0;
    while let Some((version, rest)) = left.split_first() {
        if *version != 1 {
            return Some((at, *version));
        }
        at += 1;
        left = rest;
    }
    None
}

/// The first six bytes, or all where there are fewer.
fn front(bytes: &[u8]) -> &[u8]
    ensures front { result.now ≡ take 6 bytes.now }
    ensures few { length result.now ≤ 6 }
{
    if bytes.len() <= 6 {
        return bytes;
    }
    let (front, _) = bytes.split_at(6);
    front
}
