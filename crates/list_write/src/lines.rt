// Lines: each ends with a line feed.
ghost use Rattle.std.specs.Prelude.{◌≡◌, length};
ghost use Rattle.list_write.specs.Lines.{lines_of, line_size, line_text, item_good, all_good};

use super::Item;
use super::items::is_item;

// The lines of a text, each up to its line feed, which counts to it; the last may have none.
#[derive(Clone, Copy)]
pub struct Lines<'a>(pub &'a [u8]);

// How long the first line is.
fn line_size(s: &[u8]) -> usize
    ensures { result ≡ line_size s.now }
{
    match s.iter().position(|b| *b == b'\n') {
        Some(k) => k + 1,
        None => s.len(),
    }
}

impl<'a> Iterator for Lines<'a> {
    ghost use Rattle.std.specs.Iterator.{YieldsFirstRef, item_count};
    ghost use Rattle.list_write.specs.Facts.{lines_left};

    type Item = &'a [u8];

    ghost next_gives = { YieldsFirstRef lines_left };

    ghost remaining = { item_count lines_left };

    fn next(&mut self) -> Option<&'a [u8]> {
        if self.0.is_empty() {
            return None;
        }
        let (line, rest) = self.0.split_at(line_size(self.0));
        self.0 = rest;
        Some(line)
    }
}

// A line without its last byte, which is the line feed in each good one.
#[tactic(auto, unfolding(crate::specs::Lines::line_text))]
pub fn line_text(line: &[u8]) -> &[u8]
    ensures { result.now ≡ line_text line.now }
{
    &line[..line.len().saturating_sub(1)]
}

// Whether a line holds what it is to hold.
fn line_good(line: &[u8], item: Item) -> bool
    ensures { result ≡ item_good item line.now }
{
    match line {
        [text @ .., b'\n'] => is_item(text, item),
        _ => false,
    }
}

// Whether all lines do.
pub fn lines_good(s: &[u8], item: Item) -> bool
    ensures { result ≡ all_good item (lines_of s.now) }
{
    Lines(s).all(|line| line_good(line, item))
}

// How many lines there are.
pub fn line_count(s: &[u8]) -> usize
    ensures { result ≡ length (lines_of s.now) }
{
    Lines(s).count()
}
