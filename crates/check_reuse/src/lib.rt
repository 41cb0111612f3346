// What a console asks of answers that it kept: whether a window may still be used, and whether two answers come from
// one delegation. An answer is told by its code, 0 where it is valid, and by what the question reads of it, so that
// nobody has to make up the rest of one. A code beside a value, and no Result: so a host keeps an answer, and hands it
// to tb_may_use_fields and tb_same_delegation_fields of the C interface.
#![tactic(auto)]

ghost use Rattle.std.specs.Prelude.{◌≡◌};
ghost use Rattle.check_reuse.specs.Reuse.{may_use, same_dele, same_delegation};

// What an answer hands out of DELE (draft 19, 5.2.6): the delegated key, and the first and the last second for which it
// is trusted.
#[derive(Clone, Copy, PartialEq, Eq)]
pub struct Delegation {
    pub pubk: [u8; 32],
    pub mint: u64,
    pub maxt: u64,
}

// Whether the window of an answer with this code and this MAXT may still be used at a time. MAXT is the last second at
// which it may.
pub fn may_use(code: u32, maxt: u64, time: u64) -> bool
    ensures { result ≡ may_use code maxt time }
{
    // A code is a number here, as C's tb_verdict has it: 0 is that of a valid answer.
    code == 0 && time <= maxt
}

// Whether two answers, each with its code and what it hands out of DELE, come from one delegation.
pub fn same_delegation(
    first_code: u32,
    first: Delegation,
    second_code: u32,
    second: Delegation,
) -> bool
    ensures { result ≡ same_delegation first_code first second_code second }
{
    first_code == 0 && second_code == 0 && same_dele(first, second)
}

// Whether two DELE hold the same: PUBK, MINT and MAXT.
fn same_dele(first: Delegation, second: Delegation) -> bool
    ensures { result ≡ same_dele first second }
{
    first == second
}
