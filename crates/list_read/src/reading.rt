// A server list's text, read into records.
ghost use Rattle.std.specs.Prelude.{◌≡◌, true, ◌+◌, ◌*◌, ◌≤◌, length, take};
ghost use Rattle.laws.specs.Pasted.{pasted, fronted};
ghost use Rattle.laws.specs.Written.{written};
ghost use Rattle.list_read.specs.Server.{server_at};
ghost use Rattle.list_read.specs.Listed.{list_of};
ghost use Rattle.list_read.specs.Read.{record_of, read_of, servers_number, record_bytes};
ghost use Rattle.list_read.specs.Facts.{can_ask, all_ask, records_at};

use super::IN_SERVER;
use super::surveys::survey_of;
use super::values::string_place;
use hash::srv_value;
use json_base64::decode;
use json_values::find;
use octets::put;
use refusal::{Refusal, codes, refuse};

// The key of a server that can be asked.
fn key_of(s: &[u8], k: usize) -> [u8; 32]
    requires { can_ask s.now k ≡ true }
    ensures { result ≡ (server_at s.now k).key }
{
    let mut key = [0u8; 32];
    let Some(p) = string_place(s, find(s, k, IN_SERVER, b"publicKey")) else {
        return key;
    };
    decode(s, p, &mut key);
    key
}

// Its record.
fn put_record(s: &[u8], k: usize, out: &mut [u8], at: usize)
    requires { (can_ask s.now k ≡ true) × (at + 64 ≤ length out.old) }
    ensures { out.new ≡ pasted out.old at (record_of (server_at s.now k)) }
{
    let key = key_of(s, k);
    let srv = srv_value(key);
    put(out, at, &key);
    put(out, at + 32, &srv);
}

// The records of the servers at the places.
fn put_all(s: &[u8], places: &[usize], out: &mut [u8])
    requires { (all_ask s.now places.now ≡ true) × (length places.now * 64 ≤ length out.old) }
    ensures { out.new ≡ fronted (records_at s.now places.now) out.old }
{
    for (i, k) in places.iter().enumerate() {
        put_record(s, *k, out, i * 64);
    }
}

// The records of the servers of a list that can be asked, at the front of out. 24 is judged of every server first, past
// the 64th too.
pub fn read_servers(text: &[u8], out: &mut [u8]) -> Result<(usize, usize), Refusal>
    ensures value { result ≡ read_of (list_of text.now) (length out.old) }
    ensures out_after { out.new ≡ written (servers_number result) (record_bytes (list_of text.now)) out.old }
{
    let y = survey_of(text)?;
    let n = y.asked;
    if out.len() < n * 64 {
        return Err(refuse(codes::ROOM));
    }
    put_all(text, &y.places[..n], out);
    Ok((n, y.passed))
}
