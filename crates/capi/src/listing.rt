// Server lists in the public format, for hosts.
ghost use Rattle.std.specs.Prelude.{◌≡◌, length};
ghost use Rattle.laws.specs.Written.{written};
ghost use Rattle.json_text.specs.Octets.{plain};
ghost use Rattle.list_read.specs.Listed.{list_of};
ghost use Rattle.list_read.specs.Read.{read_of, record_bytes};
ghost use Rattle.list_parts.specs.Parts.{name_in, address_in, tcp_in, source_in, reports_in, part_of, addressed_by};
ghost use Rattle.list_write.specs.Given.{given};
ghost use Rattle.list_write.specs.Lent.{lent, givens};
ghost use Rattle.list_write.specs.Texts.{server_text, list_text};
ghost use Rattle.list_write.specs.Answers.{server_answer, list_answer};
ghost use Rattle.c_lists.specs.Listing.{tb_servers, tb_addressed};
ghost use Rattle.c_packets.specs.Writing.{tb_wrote};

use c_lists::{TbAddressed, TbServers};
use c_packets::TbWrote;

// The records of the servers of a list that can be asked, at the front of out.
#[unsafe(no_mangle)]
pub extern "C" fn tb_read_servers(text: &[u8], out: &mut [u8]) -> TbServers
    ensures value { result ≡ tb_servers (read_of (list_of text.now) (length out.old)) }
    ensures out_after { out.new
        ≡ written result.code (record_bytes (list_of text.now)) out.old }
{
    list_read::read_servers(text, out).into()
}

// The name of a server that can be asked, by its place among these.
#[unsafe(no_mangle)]
pub extern "C" fn tb_server_name(text: &[u8], place: usize, out: &mut [u8]) -> TbWrote
    ensures value { result
        ≡ tb_wrote
        (part_of (list_of text.now) (name_in (list_of text.now) place) (length out.old)) }
    ensures out_after { out.new ≡ written result.code (plain (name_in (list_of text.now) place)) out.old }
{
    list_parts::server_name(text, place, out).into()
}

// An address of such a server, by its own place.
#[unsafe(no_mangle)]
pub extern "C" fn tb_server_address(
    text: &[u8],
    place: usize,
    which: usize,
    out: &mut [u8],
) -> TbAddressed
    ensures value { result
        ≡ tb_addressed
        (addressed_by (tcp_in (list_of text.now) place which)
        (part_of (list_of text.now) (address_in (list_of text.now) place which)
        (length out.old))) }
    ensures out_after { out.new
        ≡ written result.code (plain (address_in (list_of text.now) place which)) out.old }
{
    list_parts::server_address(text, place, which, out).into()
}

// A source of a list, by its place.
#[unsafe(no_mangle)]
pub extern "C" fn tb_list_source(text: &[u8], place: usize, out: &mut [u8]) -> TbWrote
    ensures value { result
        ≡ tb_wrote
        (part_of (list_of text.now) (source_in (list_of text.now) place) (length out.old)) }
    ensures out_after { out.new ≡ written result.code (plain (source_in (list_of text.now) place)) out.old }
{
    list_parts::list_source(text, place, out).into()
}

// Where a list's reports go.
#[unsafe(no_mangle)]
pub extern "C" fn tb_list_reports(text: &[u8], out: &mut [u8]) -> TbWrote
    ensures value { result
        ≡ tb_wrote (part_of (list_of text.now) (reports_in (list_of text.now)) (length out.old)) }
    ensures out_after { out.new ≡ written result.code (plain (reports_in (list_of text.now))) out.old }
{
    list_parts::list_reports(text, out).into()
}

// One server object, at the front of out.
#[unsafe(no_mangle)]
pub extern "C" fn tb_write_server(
    name: &[u8],
    version: u32,
    key: &[u8; 32],
    addresses: &[u8],
    out: &mut [u8],
) -> TbWrote
    ensures value { result
        ≡ tb_wrote
        (server_answer (given name.now version key.now addresses.now)
        (length out.old)) }
    ensures out_after { out.new
        ≡ written result.code
        (server_text (given name.now version key.now addresses.now))
        out.old }
{
    list_write::write_server(name, version, *key, addresses, out).into()
}

// A whole list, at the front of out.
#[unsafe(no_mangle)]
pub extern "C" fn tb_write_servers(
    keys: &[u8],
    versions: &[u32],
    names: &[u8],
    name_lengths: &[u32],
    addresses: &[u8],
    address_lengths: &[u32],
    sources: &[u8],
    reports: &[u8],
    out: &mut [u8],
) -> TbWrote
    ensures value { result
        ≡ tb_wrote
        (list_answer
        (lent keys.now versions.now names.now name_lengths.now
        addresses.now address_lengths.now)
        sources.now reports.now (length out.old)) }
    ensures out_after { out.new
        ≡ written result.code
        (list_text
        (givens
        (lent keys.now versions.now names.now name_lengths.now
        addresses.now address_lengths.now))
        sources.now reports.now)
        out.old }
{
    list_write::write_servers(
        keys,
        versions,
        names,
        name_lengths,
        addresses,
        address_lengths,
        sources,
        reports,
        out,
    )
    .into()
}
