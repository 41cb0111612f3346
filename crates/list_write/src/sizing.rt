// How much room is left behind each piece. It is known before a byte is written, so that nothing is where there is too
// little.
ghost use Rattle.std.specs.Prelude.{◌≡◌, true, length};
ghost use Rattle.json_quote.specs.Room.{spent};
ghost use Rattle.list_write.specs.Lending.{given_of};
ghost use Rattle.list_write.specs.Lines.{lines_of, is_item, all_good};
ghost use Rattle.list_write.specs.Texts.{item_text, items_text, server_text};

use super::decimal::digits_of;
use super::lines::{Lines, line_text};
use super::{Item, Server};
use json_quote::{quoted_room, spend};

// What is fixed in an address object, its protocol counted in,
const ADDRESS: usize = 29;

// and in a server object, its key counted in.
const SERVER: usize = 119;

// What a line holds.
fn item_room(room: Option<usize>, t: &[u8], item: Item) -> Option<usize>
    requires { is_item item t.now ≡ true }
    ensures { result ≡ spent room (length (item_text item t.now)) }
{
    match item {
        Item::Source => quoted_room(room, t),
        Item::Address => quoted_room(spend(room, ADDRESS), &t[4..]),
    }
}

// All lines, with commas between them, and the closing bracket.
pub fn items_room(room: Option<usize>, s: &[u8], item: Item) -> Option<usize>
    requires { all_good item (lines_of s.now) ≡ true }
    ensures { result ≡ spent room (length (items_text item (lines_of s.now))) }
{
    let mut left = room;
    let mut before: &[u8] = b"";
    for line in Lines(s) {
        left = item_room(spend(left, before.len()), line_text(line), item);
        before = b",";
    }
    spend(left, 1)
}

// A server object.
pub fn server_room(room: Option<usize>, server: Server<'_>) -> Option<usize>
    requires { all_good Item.Address (lines_of server.addresses.now) ≡ true }
    ensures { result ≡ spent room (length (server_text (given_of server.entry))) }
{
    let d = digits_of(server.version);
    let a = spend(room, SERVER + (10 - d.from));
    items_room(quoted_room(a, server.name), server.addresses, Item::Address)
}
