// What a seed is expanded to (RFC 8032, 5.1.5, steps 1 and 2, and 5.1.6, step 1; secret_expand of section 6).
ghost use Rattle.ed25519_sign.specs.Steps.{Expanded};

use super::Secret;
use super::pruning::pruned;
use choices::still;
use octets::{copy32, le64};
use sha512::sha512;

// The scalar and the prefix of a seed. Any word serves the veil: nothing branches on it.
pub fn secret_expand(seed: [u8; 32]) -> Secret
    ensures { Expanded seed result }
{
    let h = sha512(&seed);
    let scalar = pruned(h);
    let prefix = copy32(&h, 32);
    Secret {
        scalar,
        prefix,
        zero: still(le64(&h, 0)),
    }
}
