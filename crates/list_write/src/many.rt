// All server objects with commas between them, and the closing bracket: how much room is left behind them, and the
// text.
ghost use Rattle.std.specs.Prelude.{◌≡◌, true, ◌+◌, ◌≤◌, length};
ghost use Rattle.laws.specs.Written.{Puts};
ghost use Rattle.json_quote.specs.Room.{spent};
ghost use Rattle.list_write.specs.Lent.{all_servers};
ghost use Rattle.list_write.specs.Facts.{given_left};
ghost use Rattle.list_write.specs.Texts.{servers_text};

use super::Servers;
use super::objects::put_server;
use super::pieces::{put_byte, put_word};
use super::sizing::server_room;
use json_quote::spend;

// What is left behind them. Before the first stands nothing, and a comma before each other one.
pub fn servers_room(room: Option<usize>, servers: Servers<'_>) -> Option<usize>
    requires { all_servers (given_left servers) ≡ true }
    ensures { result ≡ spent room (length (servers_text (given_left servers.entry))) }
{
    let mut left = room;
    let mut before: &[u8] = b"";
    for server in servers {
        left = server_room(spend(left, before.len()), server);
        before = b",";
    }
    spend(left, 1)
}

// Them, from index at of out on. The answer is the index at which they end.
pub fn put_servers(out: &mut [u8], at: usize, servers: Servers<'_>) -> usize
    requires good { all_servers (given_left servers) ≡ true }
    requires room { at + length (servers_text (given_left servers)) ≤ length out.old }
    ensures { Puts out.old at (servers_text (given_left servers.entry)) out.new result }
{
    let mut j = at;
    let mut before: &[u8] = b"";
    for server in servers {
        let a = put_word(out, j, before);
        j = put_server(out, a, server);
        before = b",";
    }
    put_byte(out, j, b']')
}
