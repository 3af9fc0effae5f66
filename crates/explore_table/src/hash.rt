//! Buckets of keys.
ghost use Rattle.std.specs.Prelude.{◌≡◌, ◌<◌};
ghost use Rattle.explore_table.specs.Buckets.{bucket_of, mixed};

// What each word's place is multiplied by: 2 ^ 64 divided by the golden ratio (Knuth, volume 3,
// "Hashing").
const FACTOR: u64 = 0x9e37_79b9_7f4a_7c15;

/// The hash of words and one more behind them.
pub fn mixed(hash: u64, word: u32) -> u64
    ensures { result ≡ mixed hash word }
{
    hash.wrapping_mul(FACTOR).wrapping_add(u64::from(word))
}

/// The bucket of a key, of so many.
pub fn bucket_of(key: &[u32], buckets: usize) -> usize
    requires { 0 < buckets }
    ensures bucket { result ≡ bucket_of key.now buckets }
    ensures within { result < buckets }
{
    let mut hash = 0u64;
    'words: for word in key {
        hash = mixed(hash, *word);
    }
    (hash >> 32) as usize % buckets
}
