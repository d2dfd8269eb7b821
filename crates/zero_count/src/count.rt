ghost use Rattle.std.specs.Prelude.{◌≡◌, ◌≤◌, ◌*◌, length};
ghost use Rattle.zero_count.specs.Zeros.{zeros, max_own_bytes};

/// How many bits of some bytes are zero. They are counted eight bytes at a time, and what is left by bytes.
pub fn count_zeros(bytes: &[u8]) -> u32
    requires { length bytes.now ≤ max_own_bytes }
    ensures count { result ≡ zeros bytes.now }
    ensures most { result ≤ 8 * length bytes.now }
{
    let (words, rest) = bytes.as_chunks::<8>();
    let mut count = 0;
    for word in words {
        count += u64::from_le_bytes(*word).count_zeros();
    }
    for byte in rest {
        count += byte.count_zeros();
    }
    count
}
