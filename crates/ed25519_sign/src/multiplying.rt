// Multiples of the base point, in bytes (RFC 8032, 5.1.5, steps 3 and 4, and 5.1.6, step 3).
ghost use Rattle.std.specs.Prelude.{◌≡◌};
ghost use Rattle.digits.specs.Digits.{value};
ghost use Rattle.ed25519_sign.specs.Signing.{encoded_times};

use super::encoding::encoded;
use ed25519_base::times_base;

// The encoding of [n]B, where s has the bytes of n.
pub fn encoded_times(s: &[u8; 32], zero: u64) -> [u8; 32]
    requires { zero ≡ 0 }
    ensures { result ≡ encoded_times (value 256 s.now) }
{
    encoded(times_base(s, zero))
}
