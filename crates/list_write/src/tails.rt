// The members behind the servers, where they are lent.
ghost use Rattle.std.specs.Prelude.{◌≡◌, true, ◌+◌, ◌≤◌, length};
ghost use Rattle.laws.specs.Written.{Puts};
ghost use Rattle.json_quote.specs.Room.{spent};
ghost use Rattle.list_write.specs.Lines.{lines_of, all_good};
ghost use Rattle.list_write.specs.Texts.{sources_text, reports_text};

use super::Item;
use super::pieces::put_word;
use super::rows::put_items;
use super::sizing::items_room;
use json_quote::{put_quoted, quoted_room, spend};

// What is left behind the sources.
pub fn sources_room(room: Option<usize>, s: &[u8]) -> Option<usize>
    requires { all_good Item.Source (lines_of s.now) ≡ true }
    ensures { result ≡ spent room (length (sources_text s.now)) }
{
    if s.len() == 0 {
        return room;
    }
    items_room(spend(room, 12), s, Item::Source)
}

// What is left behind the URL for reports.
pub fn reports_room(room: Option<usize>, u: &[u8]) -> Option<usize>
    ensures { result ≡ spent room (length (reports_text u.now)) }
{
    if u.len() == 0 {
        return room;
    }
    quoted_room(spend(room, 11), u)
}

// The sources. The answer is the index at which they end.
pub fn put_sources(out: &mut [u8], at: usize, s: &[u8]) -> usize
    requires { (all_good Item.Source (lines_of s.now) ≡ true) × (at + length (sources_text s.now) ≤ length out.old) }
    ensures { Puts out.old at (sources_text s.now) out.new result }
{
    if s.len() == 0 {
        return at;
    }
    let a = put_word(out, at, b",\"sources\":[");
    put_items(out, a, s, Item::Source)
}

// The URL for reports. The answer is the index at which it ends.
pub fn put_reports(out: &mut [u8], at: usize, u: &[u8]) -> usize
    requires { at + length (reports_text u.now) ≤ length out.old }
    ensures { Puts out.old at (reports_text u.now) out.new result }
{
    if u.len() == 0 {
        return at;
    }
    let a = put_word(out, at, b",\"reports\":");
    put_quoted(out, a, u)
}
