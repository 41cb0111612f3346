// The lengths of the answers, in the place of the marks.
ghost use Rattle.std.specs.Prelude.{cond, ◌≡◌, ◌≤◌, length};
ghost use Rattle.laws.specs.Pasted.{fronted};
ghost use Rattle.laws.specs.Upto.{upto};
ghost use Rattle.server_batch.specs.Steps.{stay_test, length_in};

use super::choosing::stays;

// The length of the answer to a packet with this mark and length: size, or 0 where there is none.
fn length_of(mark: u32, n: usize, least: usize, size: u32) -> u32
    ensures { result ≡ cond (stay_test mark n least) size 0 }
{
    if stays(mark, n, least) { size } else { 0 }
}

// The lengths of all answers, of which each has size bytes, at the front of marks.
pub fn put_lengths(lengths: &[u32], least: usize, size: u32, marks: &mut [u32])
    requires { length lengths.now ≤ length marks.old }
    ensures { marks.new
        ≡ fronted
        (upto (length_in marks.old lengths.now least size) (length lengths.now))
        marks.old }
{
    for (i, n) in lengths.iter().enumerate() {
        marks[i] = length_of(marks[i], *n as usize, least, size);
    }
}
