// What is refused of the servers that are lent.
ghost use Rattle.std.specs.Prelude.{◌≡◌};
ghost use Rattle.refusal.specs.Refusal.{refusal, passes};
ghost use Rattle.list_write.specs.Given.{good_server, is_crowded, server_code, good_reports};

use super::items::is_url;
use super::lines::{line_count, lines_good};
use super::{ADDRESSES, Item, Server};
use json_quote::is_utf8;
use refusal::{Refusal, codes, refuse};

// Whether a server can be written.
#[tactic(auto, unfolding(crate::specs::Given::good_server, laws::specs::Pick::both))]
pub fn server_good(server: Server<'_>) -> bool
    ensures { result ≡ good_server server.entry.name.now server.entry.addresses.now }
{
    is_utf8(server.name) && lines_good(server.addresses, Item::Address)
}

// Whether it has too many addresses.
pub fn is_crowded(server: Server<'_>) -> bool
    ensures { result ≡ is_crowded server.entry.addresses.now }
{
    ADDRESSES < line_count(server.addresses)
}

// Why a server is refused.
pub fn check_server(server: Server<'_>) -> Result<(), Refusal>
    ensures { result ≡ passes (refusal (server_code server.entry.name.now server.entry.addresses.now)) }
{
    if !server_good(server) {
        return Err(refuse(codes::REPORT_TEXT));
    }
    if is_crowded(server) {
        return Err(refuse(codes::ENTRIES));
    }
    Ok(())
}

// Whether the URL for reports is one, or is left out.
#[tactic(auto, unfolding(crate::specs::Given::good_reports, laws::specs::Pick::either))]
pub fn reports_good(reports: &[u8]) -> bool
    ensures { result ≡ good_reports reports.now }
{
    reports.is_empty() || is_url(reports)
}
