// What reading answers, as structs.
ghost use Rattle.std.specs.Prelude.{◌≡◌};
ghost use Rattle.c_packets.specs.Reading.{tb_request, tb_response, tb_parts};

use super::numbers::flag;
use super::{TbParts, TbRequest, TbResponse};
use refusal::Refusal;
use wire_packet::{Request, Response, SignedParts};

// A request, as a struct. Of a refused one all bytes are 0.
impl From<Result<Request, Refusal>> for TbRequest {
    ghost from_gives = { λ q r. r ≡ tb_request q };

    fn from(q: Result<Request, Refusal>) -> TbRequest {
        match q {
            Ok(request) => {
                let nonc = request.nonc;
                TbRequest {
                    code: 0,
                    with_srv: flag(request.srv.is_some()),
                    at: 0,
                    nonc,
                    srv: request.srv.unwrap_or([0u8; 32]),
                }
            }
            Err(why) => TbRequest {
                code: why.code as u32,
                with_srv: 0,
                at: why.at as u64,
                nonc: [0u8; 32],
                srv: [0u8; 32],
            },
        }
    }
}

// A response, as a struct. Of a refused one all numbers and bytes are 0.
impl From<Result<Response, Refusal>> for TbResponse {
    ghost from_gives = { λ q r. r ≡ tb_response q };

    fn from(q: Result<Response, Refusal>) -> TbResponse {
        match q {
            Ok(response) => {
                let nonc = response.nonc;
                let root = response.root;
                TbResponse {
                    code: 0,
                    indx: response.indx,
                    at: 0,
                    midp: response.midp,
                    radi: response.radi,
                    nonc,
                    root,
                }
            }
            Err(why) => TbResponse {
                code: why.code as u32,
                indx: 0,
                at: why.at as u64,
                midp: 0,
                radi: 0,
                nonc: [0u8; 32],
                root: [0u8; 32],
            },
        }
    }
}

// The parts of a response that a host verifies, as a struct. Of a refused one all bytes are 0.
impl From<Result<SignedParts, Refusal>> for TbParts {
    ghost from_gives = { λ q r. r ≡ tb_parts q };

    fn from(q: Result<SignedParts, Refusal>) -> TbParts {
        match q {
            Ok(parts) => {
                let signature = parts.signature;
                let delegation = parts.delegation;
                let pubk = parts.pubk;
                TbParts {
                    code: 0,
                    at: 0,
                    signature,
                    delegation,
                    pubk,
                }
            }
            Err(why) => TbParts {
                code: why.code as u32,
                at: why.at as u64,
                signature: [0u8; 64],
                delegation: [0u8; 64],
                pubk: [0u8; 32],
            },
        }
    }
}
