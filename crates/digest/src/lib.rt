// The digest (FNV-1a, 64 bits) of lent bytes and of a u64 key, and the home slot of either.
#![tactic(auto)]

ghost use Rattle.std.specs.Prelude.{◌≡◌, ◌*◌, ◌%◌, ◌^◌};
ghost use Rattle.digest.specs.Digest.{mix_of, more_of, digest_of, key_digest, word_of};
ghost use Rattle.digest.specs.Home.{slot_of, home_of, home_of_word, slots_fit, homed_of, homed_of_word};

use answers::Refusal;
use std::num::wrapping_add_u64;

// The published start of a digest.
pub const PUBLISHED: u64 = 14695981039346656037;

// The most slots that a table has.
pub const SLOT_LIMIT: u64 = 4096;

// The most bytes that a key has.
pub const KEY_LIMIT: usize = 255;

// The product of h and the published prime, 2^40 + 435, modulo 2^64: 435 is 3 + 48 + 384.
fn times_prime(h: u64) -> u64
    ensures { result ≡ h * 1099511628211 % 2 ^ 64 }
{
    let by_3 = wrapping_add_u64(h, h << 1);
    let by_51 = wrapping_add_u64(by_3, by_3 << 4);
    let by_435 = wrapping_add_u64(by_51, by_3 << 7);
    wrapping_add_u64(by_435, h << 40)
}

// The state h after one byte more.
fn mix(h: u64, b: u8) -> u64
    ensures { result ≡ mix_of h b }
{
    times_prime(h ^ (b as u64))
}

// The running state after these bytes.
#[tactic(auto, using(crate::proofs::Steps::byte_turn, crate::proofs::Steps::byte_end))]
pub fn digest_more(state: u64, bytes: &[u8]) -> u64
    ensures { result ≡ more_of state bytes.now }
{
    let mut h = state;
    for b in bytes {
        h = mix(h, *b);
    }
    h
}

// The digest of these bytes, of any length.
pub fn digest(bytes: &[u8]) -> u64
    ensures { result ≡ digest_of bytes.now }
{
    digest_more(PUBLISHED, bytes)
}

// The digest of a byte key in a table with this start number.
pub fn digest_key(start: u64, bytes: &[u8]) -> u64
    ensures { result ≡ key_digest start bytes.now }
{
    digest_more(start ^ PUBLISHED, bytes)
}

// The digest of a u64 key, as its 8 bytes, low byte first, in a table with this start number.
pub fn digest_word(start: u64, x: u64) -> u64
    ensures { result ≡ word_of start x }
{
    let mut h = start ^ PUBLISHED;
    let mut rest = x;
    let mut left: u64 = 8;
    while 0 < left {
        h = mix(h, (rest % 256) as u8);
        rest = rest / 256;
        left -= 1;
    }
    h
}

// The slot of a digest among this many slots; of no slots, the digest itself.
pub fn slot_of(digest: u64, slots: u64) -> u64
    ensures { result ≡ slot_of digest slots }
{
    if slots == 0 {
        return digest;
    }
    digest % slots
}

// The home slot of a byte key, with no test: for callers that made the tests of `home`.
pub fn slot_of_key(bytes: &[u8], slots: u64, start: u64) -> u64
    ensures { result ≡ home_of start slots bytes.now }
{
    slot_of(digest_key(start, bytes), slots)
}

// The home slot of a u64 key, with no test.
pub fn slot_of_word(key: u64, slots: u64, start: u64) -> u64
    ensures { result ≡ home_of_word start slots key }
{
    slot_of(digest_word(start, key), slots)
}

// Whether a table may have this many slots.
pub fn slots_fit(slots: u64) -> bool
    ensures { result ≡ slots_fit slots }
{
    if slots == 0 {
        return false;
    }
    slots <= SLOT_LIMIT
}

// The home slot of a byte key among this many slots, in a table with this start number.
pub fn home(bytes: &[u8], slots: u64, start: u64) -> Result<u64, Refusal>
    ensures { result ≡ homed_of start slots bytes.now }
{
    if slots_fit(slots) {
        if bytes.len() <= KEY_LIMIT {
            return Ok(slot_of_key(bytes, slots, start));
        }
        return Err(Refusal::LongKey);
    }
    Err(Refusal::Sizes)
}

// The home slot of a u64 key among this many slots, in a table with this start number.
pub fn home_word(key: u64, slots: u64, start: u64) -> Result<u64, Refusal>
    ensures { result ≡ homed_of_word start slots key }
{
    if slots_fit(slots) {
        return Ok(slot_of_word(key, slots, start));
    }
    Err(Refusal::Sizes)
}
