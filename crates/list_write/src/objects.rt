// The object of a server, piece after piece. Each function answers the index at which its piece ends.
ghost use Rattle.std.specs.Prelude.{◌≡◌, true, ◌+◌, ◌≤◌, length};
ghost use Rattle.laws.specs.Written.{Puts};
ghost use Rattle.list_write.specs.Lending.{given_of};
ghost use Rattle.list_write.specs.Lines.{lines_of, all_good};
ghost use Rattle.list_write.specs.Texts.{head_text, key_text, server_text};

use super::pieces::{put_byte, put_code, put_decimal, put_word};
use super::rows::put_items;
use super::{Item, Server};
use json_quote::put_quoted;

// The name and the version.
fn put_head(out: &mut [u8], at: usize, name: &[u8], version: u32) -> usize
    requires { at + length (head_text name.now version) ≤ length out.old }
    ensures { Puts out.old at (head_text name.now version) out.new result }
{
    let a = put_word(out, at, b"{\"name\":");
    let b = put_quoted(out, a, name);
    let c = put_word(out, b, b",\"version\":");
    put_decimal(out, c, version)
}

// The key, up to the addresses.
fn put_key(out: &mut [u8], at: usize, key: &[u8]) -> usize
    requires { at + length (key_text key.now) ≤ length out.old }
    ensures { Puts out.old at (key_text key.now) out.new result }
{
    let a = put_word(out, at, b",\"publicKeyType\":\"ed25519\",\"publicKey\":\"");
    let b = put_code(out, a, key);
    put_word(out, b, b"\",\"addresses\":[")
}

// The whole object.
pub fn put_server(out: &mut [u8], at: usize, server: Server<'_>) -> usize
    requires { (all_good Item.Address (lines_of server.addresses.now) ≡ true)
        × (at + length (server_text (given_of server)) ≤ length out.old) }
    ensures { Puts out.old at (server_text (given_of server.entry)) out.new result }
{
    let key: &[u8; 32] = server.key;
    let a = put_head(out, at, server.name, server.version);
    let b = put_key(out, a, key);
    let c = put_items(out, b, server.addresses, Item::Address);
    put_byte(out, c, b'}')
}
