// The parts of a list: 24 and 25 are judged of the whole list first.
ghost use Rattle.std.specs.Prelude.{◌≡◌, true, ◌<◌, length};
ghost use Rattle.laws.specs.Written.{written};
ghost use Rattle.json_text.specs.Octets.{plain};
ghost use Rattle.list_read.specs.Server.{server_good, server_at};
ghost use Rattle.list_read.specs.Listed.{list_of};
ghost use Rattle.list_parts.specs.Parts.{name_in, address_in, tcp_in, source_in, reports_in, part_of, part_number};
ghost use Rattle.list_parts.specs.Parts.{address_of, tcp_of, put_of, addressed_by, addressed_number};

use super::Addressed;
use super::places::{member_item, server_place};
use super::strings::{put_address, put_string};
use json_values::{Found, find};
use list_read::{IN_ADDRESSES, IN_SERVER, IN_SERVERS, survey_of};
use refusal::{Refusal, codes, refuse};

// The name of the i-th server that can be asked.
pub fn server_name(text: &[u8], i: usize, out: &mut [u8]) -> Result<usize, Refusal>
    ensures value { result ≡ part_of (list_of text.now) (name_in (list_of text.now) i) (length out.old) }
    ensures out_after { out.new ≡ written (part_number result) (plain (name_in (list_of text.now) i)) out.old }
{
    let y = survey_of(text)?;
    let Some(k) = server_place(y, i) else {
        return Err(refuse(codes::LIST_PLACE));
    };
    put_string(text, find(text, k, IN_SERVER, b"name"), out)
}

// The j-th address of a server object.
fn address_of(s: &[u8], k: usize, j: usize, out: &mut [u8]) -> Result<Addressed, Refusal>
    requires { server_good s.now k ≡ true }
    ensures value { result
        ≡ addressed_by (tcp_of (server_at s.now k) j)
        (put_of (address_of (server_at s.now k) j) (length out.old)) }
    ensures out_after { out.new
        ≡ written (addressed_number result) (plain (address_of (server_at s.now k) j)) out.old }
{
    let addresses = find(s, k, IN_SERVER, b"addresses");
    let Some(m) = member_item(s, addresses, IN_ADDRESSES, j) else {
        return Err(refuse(codes::LIST_PLACE));
    };
    put_address(s, m, out)
}

// The j-th address of the i-th server that can be asked, and over which protocol it is asked.
pub fn server_address(text: &[u8], i: usize, j: usize, out: &mut [u8]) -> Result<Addressed, Refusal>
    ensures value { result
        ≡ addressed_by (tcp_in (list_of text.now) i j)
        (part_of (list_of text.now) (address_in (list_of text.now) i j) (length out.old)) }
    ensures out_after { out.new
        ≡ written (addressed_number result) (plain (address_in (list_of text.now) i j)) out.old }
{
    let y = survey_of(text)?;
    let Some(k) = server_place(y, i) else {
        return Err(refuse(codes::LIST_PLACE));
    };
    address_of(text, k, j, out)
}

// The i-th source of a list.
pub fn list_source(text: &[u8], i: usize, out: &mut [u8]) -> Result<usize, Refusal>
    ensures value { result ≡ part_of (list_of text.now) (source_in (list_of text.now) i) (length out.old) }
    ensures out_after { out.new ≡ written (part_number result) (plain (source_in (list_of text.now) i)) out.old }
{
    let y = survey_of(text)?;
    let sources = y.sources;
    let Some(k) = member_item(text, sources, IN_SERVERS, i) else {
        return Err(refuse(codes::LIST_PLACE));
    };
    put_string(text, Found::At(k), out)
}

// Where a list's reports go.
pub fn list_reports(text: &[u8], out: &mut [u8]) -> Result<usize, Refusal>
    ensures value { result ≡ part_of (list_of text.now) (reports_in (list_of text.now)) (length out.old) }
    ensures out_after { out.new ≡ written (part_number result) (plain (reports_in (list_of text.now))) out.old }
{
    let y = survey_of(text)?;
    let reports = y.reports;
    put_string(text, reports, out)
}
