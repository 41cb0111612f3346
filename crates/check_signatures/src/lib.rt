// The two signatures of a response, verified by our own Ed25519 (request P11): that of CERT under the server's
// long-term key, and that of the response under the PUBK of its DELE. `check_signed` is the response check that needs
// no answers. It answers what `check_response` answers when it is given these two. All take any bytes. Signatures are
// looked at last, and only where nothing cheaper refuses: a damaged packet costs no verification.
#![tactic(auto)]

mod checking;
mod verifying;

pub use checking::check_signed;
pub use verifying::answers;

// Whether the signature of the delegation verifies, and whether that of the response does: two answers, and no refusal.
// `tb_answers` tells C both.
#[derive(Clone, Copy)]
pub struct Verified {
    pub delegation: bool,
    pub signature: bool,
}
