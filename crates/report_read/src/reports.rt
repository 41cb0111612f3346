// The outermost object of a report.
ghost use Rattle.std.specs.Prelude.{◌≡◌};
ghost use Rattle.json_tokens.specs.Scan.{after};
ghost use Rattle.report_read.specs.Ready.{Seeks, Rests, Behind, Opened, ReportBy};

use super::lists::list;
use super::{IN_REPORT, Kept};
use json_strings::string;
use json_tokens::{Step, after_item, blanks, byte, colon};
use json_values::{is_named, member};

// The first member from a place on that has the name.
fn seek(s: &[u8], at: usize) -> Option<usize>
    ensures { Seeks s.now at result }
{
    let mut k = at;
    // loop: what stands behind a member says whether another follows.
    loop {
        if is_named(s, k, b"responses") {
            return Some(k);
        }
        match member(s, k, IN_REPORT) {
            Step::More(j) => {
                k = j;
            }
            Step::End(_) => {
                return None;
            }
            Step::Wrong => {
                return None;
            }
        }
    }
}

// The place past the object whose members from a place on have other names.
fn rest(s: &[u8], at: usize) -> Option<usize>
    ensures { Rests s.now at result }
{
    let mut k = at;
    // loop: what stands behind a member says whether another follows.
    loop {
        if is_named(s, k, b"responses") {
            return None;
        }
        match member(s, k, IN_REPORT) {
            Step::More(j) => {
                k = j;
            }
            Step::End(e) => {
                return Some(e);
            }
            Step::Wrong => {
                return None;
            }
        }
    }
}

// The same behind a member whose value ends at a place.
fn behind(s: &[u8], f: usize) -> Option<usize>
    ensures { Behind s.now (after s.now 125 f) result }
{
    match after_item(s, f, b'}') {
        Step::More(j) => rest(s, j),
        Step::End(e) => Some(e),
        Step::Wrong => None,
    }
}

// The text whose object has the name at k first.
fn report_at(s: &[u8], k: usize) -> Option<Kept>
    requires { Opened s.now k }
    ensures { ReportBy s.now result }
{
    let Some(e) = string(s, k) else {
        return None;
    };
    let Some(v) = colon(s, e) else {
        return None;
    };
    let b = byte(s, v);
    if b != b'[' {
        return None;
    }
    let Some((g, f)) = list(s, v) else {
        return None;
    };
    let Some(j) = behind(s, f) else {
        return None;
    };
    if blanks(s, j) == s.len() {
        Some(g)
    } else {
        None
    }
}

// What a text says, if it is a report.
pub fn report(s: &[u8]) -> Option<Kept>
    ensures { ReportBy s.now result }
{
    let root = blanks(s, 0);
    let b = byte(s, root);
    if b != b'{' {
        return None;
    }
    let first = blanks(s, root + 1);
    let a = byte(s, first);
    if a == b'}' {
        return None;
    }
    let Some(k) = seek(s, first) else {
        return None;
    };
    report_at(s, k)
}
