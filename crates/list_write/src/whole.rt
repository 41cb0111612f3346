// A whole list: what is refused of it, how much room it takes, and its text.
ghost use Rattle.std.specs.Prelude.{◌≡◌, ◌+◌, ◌≤◌, length};
ghost use Rattle.laws.specs.Written.{Puts};
ghost use Rattle.refusal.specs.Refusal.{refusal, passes};
ghost use Rattle.json_quote.specs.Room.{spent};
ghost use Rattle.list_write.specs.Lending.{lent_of};
ghost use Rattle.list_write.specs.Facts.{given_left, Ready};
ghost use Rattle.list_write.specs.Texts.{list_text};
ghost use Rattle.list_write.specs.Lent.{all_servers, any_crowded};
ghost use Rattle.list_write.specs.Answers.{good_list, size_code, list_code};

use super::checking::{is_crowded, reports_good, server_good};
use super::lines::lines_good;
use super::many::{put_servers, servers_room};
use super::pieces::{put_byte, put_word};
use super::tails::{put_reports, put_sources, reports_room, sources_room};
use super::{Item, Listing, SERVERS, Servers};
use json_quote::spend;
use refusal::{Refusal, codes, refuse};

// Whether all servers can be written.
fn servers_good(servers: Servers<'_>) -> bool
    ensures { result ≡ all_servers (given_left servers.entry) }
{
    let mut servers = servers;
    servers.all(server_good)
}

// Whether one has too many addresses.
fn any_crowded(servers: Servers<'_>) -> bool
    ensures { result ≡ any_crowded (given_left servers.entry) }
{
    let mut servers = servers;
    servers.any(is_crowded)
}

// Whether all that stands in the list can be written.
#[tactic(auto, unfolding(crate::specs::Answers::good_list, laws::specs::Pick::both))]
fn list_good(list: Listing<'_>) -> bool
    ensures { result ≡ good_list (lent_of list.entry.servers.left) list.entry.sources.now list.entry.reports.now }
{
    servers_good(list.servers)
        && lines_good(list.sources, Item::Source)
        && reports_good(list.reports)
}

// 25 by how many servers there are, and by how many addresses one has.
fn check_sizes(servers: Servers<'_>) -> Result<(), Refusal>
    ensures { result ≡ passes (refusal (size_code (given_left servers.entry))) }
{
    let n = servers.left.versions.len();
    if n == 0 {
        return Err(refuse(codes::ENTRIES));
    }
    if SERVERS < n {
        return Err(refuse(codes::ENTRIES));
    }
    if any_crowded(servers) {
        return Err(refuse(codes::ENTRIES));
    }
    Ok(())
}

// Why a list is refused.
pub fn check_list(list: Listing<'_>) -> Result<(), Refusal>
    ensures { result
        ≡ passes
        (refusal (list_code (lent_of list.entry.servers.left) list.entry.sources.now list.entry.reports.now)) }
{
    if !list_good(list) {
        return Err(refuse(codes::REPORT_TEXT));
    }
    check_sizes(list.servers)
}

// What is left behind the text.
pub fn list_room(room: Option<usize>, list: Listing<'_>) -> Option<usize>
    requires { Ready list }
    ensures { result
        ≡ spent room
        (length (list_text (given_left list.entry.servers) list.entry.sources.now list.entry.reports.now)) }
{
    let a = servers_room(spend(room, 12), list.servers);
    let b = reports_room(sources_room(a, list.sources), list.reports);
    spend(b, 1)
}

// The text, at the front of out. The answer is the index at which it ends.
pub fn put_list(out: &mut [u8], list: Listing<'_>) -> usize
    requires ready { Ready list }
    requires room { 0
        + length (list_text (given_left list.servers) list.sources.now list.reports.now)
        ≤ length out.old }
    ensures { Puts out.old 0
        (list_text (given_left list.entry.servers) list.entry.sources.now list.entry.reports.now) out.new result }
{
    let a = put_word(out, 0, b"{\"servers\":[");
    let b = put_servers(out, a, list.servers);
    let c = put_sources(out, b, list.sources);
    let d = put_reports(out, c, list.reports);
    put_byte(out, d, b'}')
}
