// A list, surveyed.
ghost use Rattle.std.specs.Prelude.{◌≡◌, ◌<◌, length};
ghost use Rattle.json_values.specs.Value.{ends_at};
ghost use Rattle.report_read.specs.Entry.{elements_of};
ghost use Rattle.list_read.specs.Server.{in_servers};
ghost use Rattle.list_read.specs.Listed.{all_urls, sources_good, reports_good};
ghost use Rattle.list_read.specs.Facts.{miscounted, Finds, Surveys, SurveysBy};

use super::elements::{first_item, next_item};
use super::tallies::tally;
use super::texts::is_sort;
use super::values::array_place;
use super::{IN_ROOT, IN_SERVERS, Sort, Survey, Tally};
use json_tokens::{blanks, byte};
use json_values::{Found, members};
use refusal::{Refusal, codes, refuse};

// Each element of the list at a place is a URL.
fn urls_in(s: &[u8], v: usize) -> bool
    requires { v < length s.now }
    ensures { result ≡ all_urls s.now (elements_of s.now in_servers v) }
{
    let mut at = first_item(s, v, IN_SERVERS);
    // while: the library's `successors` finds the next element before it gives one, and so would walk over a wrong one.
    while let Some(k) = at {
        if !is_sort(s, Found::At(k), Sort::Url) {
            return false;
        }
        at = next_item(s, k, IN_SERVERS);
    }
    true
}

fn sources_good(s: &[u8], f: Found) -> bool
    ensures { result ≡ sources_good s.now f }
{
    match f {
        Found::At(v) => byte(s, v) == b'[' && urls_in(s, v),
        Found::Nothing => true,
        Found::Twice => false,
    }
}

fn reports_good(s: &[u8], f: Found) -> bool
    ensures { result ≡ reports_good s.now f }
{
    match f {
        Found::At(v) => is_sort(s, Found::At(v), Sort::Url),
        Found::Nothing => true,
        Found::Twice => false,
    }
}

// An object ends there, and nothing but blanks stands behind it.
fn is_whole(s: &[u8], end: Option<usize>) -> bool
    ensures { result ≡ ends_at s.now end }
{
    let Some(e) = end else {
        return false;
    };
    blanks(s, e) == s.len()
}

// No server, more than 64, or one with too many addresses.
#[tactic(auto, unfolding(crate::specs::Facts::miscounted, laws::specs::Pick::either))]
fn miscounted(t: &Tally) -> bool
    ensures { result ≡ miscounted t.now.count t.now.crowded }
{
    t.count == 0 || 64 < t.count || t.crowded
}

// The servers of the list at a place, where the other members are good.
fn survey_servers(s: &[u8], v: usize, sources: Found, reports: Found) -> Result<Survey, Refusal>
    requires { v < length s.now }
    ensures { Finds s.now (elements_of s.now in_servers v) sources reports result }
{
    let Some(t) = tally(s, v) else {
        return Err(refuse(codes::REPORT_TEXT));
    };
    if miscounted(&t) {
        return Err(refuse(codes::ENTRIES));
    }
    Ok(Survey {
        asked: t.asked,
        passed: t.count - t.asked,
        places: t.places,
        sources,
        reports,
    })
}

// The same by the members of the outermost object: 24 of any of them, then 25.
fn survey_by(s: &[u8], servers: Found, sources: Found, reports: Found) -> Result<Survey, Refusal>
    ensures { SurveysBy s.now servers sources reports result }
{
    if !sources_good(s, sources) {
        return Err(refuse(codes::REPORT_TEXT));
    }
    if !reports_good(s, reports) {
        return Err(refuse(codes::REPORT_TEXT));
    }
    let Some(v) = array_place(s, servers) else {
        return Err(refuse(codes::REPORT_TEXT));
    };
    survey_servers(s, v, sources, reports)
}

// What a list says. One walk over the outermost object finds its members, and tells whether the text is JSON.
pub fn survey_of(text: &[u8]) -> Result<Survey, Refusal>
    ensures { Surveys text.now result }
{
    let root = blanks(text, 0);
    if byte(text, root) != b'{' {
        return Err(refuse(codes::REPORT_TEXT));
    }
    let none: &[u8] = b"";
    let m = members(
        text, root, IN_ROOT, b"servers", b"sources", b"reports", none, none,
    );
    if !is_whole(text, m.end) {
        return Err(refuse(codes::REPORT_TEXT));
    }
    survey_by(text, m.a, m.b, m.c)
}
