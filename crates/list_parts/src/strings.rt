// A string's text, put into a buffer.
ghost use Rattle.std.specs.Prelude.{◌≡◌, ◌<◌, length};
ghost use Rattle.laws.specs.Written.{written};
ghost use Rattle.json_text.specs.Octets.{plain};
ghost use Rattle.list_read.specs.Server.{text_by, of_address, address_at, address_name};
ghost use Rattle.list_parts.specs.Parts.{put_of, part_number, addressed_by, addressed_number};

use super::Addressed;
use json_text::{put_text, text_size};
use json_values::{Found, find};
use list_read::{IN_ADDRESS, is_word, string_place};
use refusal::{Refusal, codes, refuse};

// The text of a member that is a string, at the front of out.
pub fn put_string(s: &[u8], f: Found, out: &mut [u8]) -> Result<usize, Refusal>
    ensures value { result ≡ put_of (text_by s.now f) (length out.old) }
    ensures out_after { out.new ≡ written (part_number result) (plain (text_by s.now f)) out.old }
{
    let Some(p) = string_place(s, f) else {
        return Err(refuse(codes::LIST_PLACE));
    };
    let Some(n) = text_size(s, p) else {
        return Err(refuse(codes::LIST_PLACE));
    };
    if out.len() < n {
        return Err(refuse(codes::ROOM));
    }
    put_text(s, p, out);
    Ok(n)
}

// The address that the address object at a place says, at the front of out.
pub fn put_address(s: &[u8], m: usize, out: &mut [u8]) -> Result<Addressed, Refusal>
    requires { m < length s.now }
    ensures value { result
        ≡ addressed_by (address_at s.now m).tcp
        (put_of (text_by s.now (of_address s.now m address_name)) (length out.old)) }
    ensures out_after { out.new
        ≡ written (addressed_number result) (plain (text_by s.now (of_address s.now m address_name)))
        out.old }
{
    let protocol = find(s, m, IN_ADDRESS, b"protocol");
    let tcp = is_word(s, string_place(s, protocol), b"tcp");
    let address = find(s, m, IN_ADDRESS, b"address");
    let n = put_string(s, address, out)?;
    if tcp {
        Ok(Addressed::Tcp(n))
    } else {
        Ok(Addressed::Udp(n))
    }
}
