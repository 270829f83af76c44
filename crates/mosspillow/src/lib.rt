// The C library: thin wrappers of the published calls. include/mosspillow.h declares them.
#![tactic(auto)]

ghost use Rattle.std.specs.Prelude.{◌≡◌};
ghost use Rattle.answers.specs.Numbers.{homed_numbers};
ghost use Rattle.digest.specs.Digest.{digest_of};
ghost use Rattle.digest.specs.Home.{homed_of};
ghost use Rattle.answers.specs.Returned.{returned};

use answers::home_returned;
use digest::{digest, home};

pub mod byte_entries;
pub mod byte_maps;
pub mod byte_sets;
pub mod int_entries;
pub mod int_maps;
pub mod int_sets;

// The digest of these bytes, of any length.
#[unsafe(no_mangle)]
pub extern "C" fn moss_digest(bytes: &[u8]) -> u64
    ensures { result ≡ digest_of bytes.now }
{
    digest(bytes)
}

// The home slot of a byte key among this many slots, or 65,536 plus the number of the refusal.
#[unsafe(no_mangle)]
pub extern "C" fn moss_home(bytes: &[u8], slots: u64) -> u64
    ensures { result ≡ returned (homed_numbers (homed_of 0 slots bytes.now)) }
{
    home_returned(home(bytes, slots, 0))
}
