// What all but f of the servers agree on.
ghost use Rattle.std.specs.Prelude.{◌≡◌};
ghost use Rattle.clock_agreement.specs.Agreement.{agreement_of};

use super::Agreed;
use super::counting::{count, depth, highest, lowest};
use super::gathering::{is_meeting, is_missing, set_of};
use clock_spans::Spans;
use refusal::{Refusal, codes, refuse};

// By the spans of eight servers, of which not all need be counted.
pub fn agree_on(spans: Spans, f: u64) -> Result<Agreed, Refusal>
    ensures { result ≡ agreement_of spans f }
{
    let k = count(spans);
    if k <= f {
        return Err(refuse(codes::TOO_FEW));
    }
    let n = k - f;
    let from = lowest(spans, n);
    if depth(spans, from) < n {
        return Err(refuse(codes::NO_AGREEMENT));
    }
    let to = highest(spans, n);
    let with = set_of(spans, |span| is_meeting(span, from, to));
    let without = set_of(spans, |span| is_missing(span, from, to));
    Ok(Agreed {
        from,
        to,
        counted: k,
        agree: with,
        suspects: without,
    })
}
