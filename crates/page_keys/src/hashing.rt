ghost use Rattle.std.specs.Prelude.{◌≡◌, ◌<◌};
ghost use Rattle.page_keys.specs.KeyMaps.{bucket_of};

/// The page that a key belongs to, of this many.
#[tactic(auto, unfolding(crate::specs::KeyMaps::hash))]
pub fn bucket(key: &[u8], logical: u32) -> u32
    requires { 0 < logical }
    ensures bucket { result ≡ bucket_of logical key.now }
    ensures exists { result < logical }
{
    let mut hash: u32 = 0;
    for byte in key {
        hash = hash.wrapping_mul(31).wrapping_add(u32::from(*byte));
    }
    hash % logical
}
