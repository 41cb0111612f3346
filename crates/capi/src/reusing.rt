// Answers that a host kept, asked again. An answer is told by its code and by what the question reads of it, so that
// one of `tb_check_response` and one of `tb_judge` do as well.
ghost use Rattle.std.specs.Prelude.{◌≡◌};
ghost use Rattle.check_reuse.specs.Reuse.{may_use, same_delegation};
ghost use Rattle.capi.specs.Reusing.{delegation_of};

use check_reuse::Delegation;

// Whether the window of an answer may still be used at a time.
#[unsafe(no_mangle)]
pub extern "C" fn tb_may_use_fields(code: u32, maxt: u64, time: u64) -> bool
    ensures { result ≡ may_use code maxt time }
{
    check_reuse::may_use(code, maxt, time)
}

// Whether two answers come from one delegation: PUBK, MINT and MAXT are compared. Under which long-term key each was
// checked is not told here, and is the host's to compare.
#[unsafe(no_mangle)]
pub extern "C" fn tb_same_delegation_fields(
    first_code: u32,
    first_pubk: &[u8; 32],
    first_mint: u64,
    first_maxt: u64,
    second_code: u32,
    second_pubk: &[u8; 32],
    second_mint: u64,
    second_maxt: u64,
) -> bool
    ensures { result
        ≡ same_delegation first_code (delegation_of first_pubk.now first_mint first_maxt)
        second_code (delegation_of second_pubk.now second_mint second_maxt) }
{
    let first = Delegation {
        pubk: *first_pubk,
        mint: first_mint,
        maxt: first_maxt,
    };
    let second = Delegation {
        pubk: *second_pubk,
        mint: second_mint,
        maxt: second_maxt,
    };
    check_reuse::same_delegation(first_code, first, second_code, second)
}
