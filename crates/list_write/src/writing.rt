// The two writers.
ghost use Rattle.std.specs.Prelude.{◌≡◌, length};
ghost use Rattle.laws.specs.Written.{written};
ghost use Rattle.list_write.specs.Given.{given};
ghost use Rattle.list_write.specs.Lent.{lent, givens};
ghost use Rattle.list_write.specs.Texts.{server_text, list_text};
ghost use Rattle.list_write.specs.Answers.{listing_number, server_answer, list_answer};

use super::checking::check_server;
use super::lending::Lent;
use super::objects::put_server;
use super::sizing::server_room;
use super::whole::{check_list, list_room, put_list};
use super::{Listing, Server};
use refusal::{Refusal, codes, refuse};

// One server object, at the front of out.
pub fn write_server(
    name: &[u8],
    version: u32,
    key: [u8; 32],
    addresses: &[u8],
    out: &mut [u8],
) -> Result<usize, Refusal>
    ensures value { result ≡ server_answer (given name.now version key addresses.now) (length out.old) }
    ensures out_after { out.new
        ≡ written (listing_number result) (server_text (given name.now version key addresses.now))
        out.old }
{
    let server = Server {
        name,
        version,
        key: &key,
        addresses,
    };
    check_server(server)?;
    match server_room(Some(out.len()), server) {
        Some(_) => Ok(put_server(out, 0, server)),
        None => Err(refuse(codes::ROOM)),
    }
}

// A whole list, at the front of out. It takes each part by itself, as the C interface hands them over; inside they go
// together.
pub fn write_servers(
    keys: &[u8],
    versions: &[u32],
    names: &[u8],
    name_lengths: &[u32],
    addresses: &[u8],
    address_lengths: &[u32],
    sources: &[u8],
    reports: &[u8],
    out: &mut [u8],
) -> Result<usize, Refusal>
    ensures value { result
        ≡ list_answer
        (lent keys.now versions.now names.now name_lengths.now
        addresses.now address_lengths.now)
        sources.now reports.now (length out.old) }
    ensures out_after { out.new
        ≡ written (listing_number result)
        (list_text
        (givens
        (lent keys.now versions.now names.now name_lengths.now
        addresses.now address_lengths.now))
        sources.now reports.now)
        out.old }
{
    let lent = Lent {
        keys,
        versions,
        names,
        name_lengths,
        addresses,
        address_lengths,
    };
    let Some(servers) = lent.servers() else {
        return Err(refuse(codes::LISTS));
    };
    let list = Listing {
        servers,
        sources,
        reports,
    };
    check_list(list)?;
    match list_room(Some(out.len()), list) {
        Some(_) => Ok(put_list(out, list)),
        None => Err(refuse(codes::ROOM)),
    }
}
