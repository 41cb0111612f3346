// A server sought in both lists.
ghost use Rattle.std.specs.Prelude.{◌≡◌};
ghost use Rattle.refusal.specs.Refusal.{passes};
ghost use Rattle.server_list.specs.Lookup.{sought, handed, place_of, where_refusal};

use super::Where;
use super::records::{SERVER, index_in, record_of};
use refusal::{Refusal, codes, refuse};

// The record of the server with this SRV value, as a part of the list that holds it; on refusal an empty part.
pub fn find_server<'a>(owner: &'a [u8], shipped: &'a [u8], srv: [u8; 32]) -> &'a [u8]
    ensures result_value { result.now ≡ handed owner.now shipped.now srv }
    ensures ref_ptr_value { result.ref_ptr ≡
        place_of owner.entry.ref_ptr shipped.entry.ref_ptr (sought owner.now shipped.now srv) }
{
    let found = search(owner, shipped, srv);
    match found {
        Ok(Where::Owner(k)) => record_of(owner, k),
        Ok(Where::Shipped(k)) => record_of(shipped, k),
        Err(_) => &owner[0..0],
    }
}

// Why a lookup of the same server in the same lists is refused: 21 or 22, and Ok where its record is handed back.
pub fn find_code<'a>(owner: &'a [u8], shipped: &'a [u8], srv: [u8; 32]) -> Result<(), Refusal>
    ensures { result ≡ passes (where_refusal (sought owner.now shipped.now srv)) }
{
    match search(owner, shipped, srv) {
        Ok(_) => Ok(()),
        Err(why) => Err(why),
    }
}

// Where the server with this SRV value stands. Both lists are looked at for 21 before either is searched.
pub fn search<'a>(owner: &'a [u8], shipped: &'a [u8], srv: [u8; 32]) -> Result<Where, Refusal>
    ensures { result ≡ sought owner.now shipped.now srv }
{
    if owner.len() % SERVER != 0 {
        return Err(refuse(codes::LISTS));
    }
    if shipped.len() % SERVER != 0 {
        return Err(refuse(codes::LISTS));
    }
    let i = index_in(owner, &srv);
    if i < owner.len() / SERVER {
        return Ok(Where::Owner(i));
    }
    let j = index_in(shipped, &srv);
    if j < shipped.len() / SERVER {
        return Ok(Where::Shipped(j));
    }
    Err(refuse(codes::UNKNOWN_SERVER))
}
