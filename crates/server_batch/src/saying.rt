// What all answers of a batch say, signed once.
ghost use Rattle.std.specs.Prelude.{◌≡◌};
ghost use Rattle.server_batch.specs.Answering.{signature_over};

use super::service::Service;
use ed25519_sign::sign_parts_with;
use server_parts::put_srep;
use wire_request::RESPONSE;

// The delegated key's signature over SREP for this root.
pub fn sign_root(service: &Service<'_>, root: [u8; 32]) -> [u8; 64]
    ensures { result
        ≡ signature_over service.now.seed root service.now.midp service.now.radi }
{
    let mut srep = [0u8; 92];
    put_srep(&mut srep, 0, root, service.midp, service.radi);
    sign_parts_with(service.seed, service.key, &RESPONSE, &srep)
}
