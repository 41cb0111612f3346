// Code 16: whether a record's lengths and zeros are right.
ghost use Rattle.std.specs.Prelude.{◌≡◌, length};
ghost use Rattle.pile.specs.Layout.{AREA};
ghost use Rattle.pile.specs.Valid.{area_bad, record_bad};

use super::layout::AREA;
use super::records::RecordBytes;
use octets::all_zero;

impl<'a> RecordBytes<'a> {
    // A length is above 2,000, or a byte that must be zero isn't.
    #[tactic(auto, unfolding(crate::specs::Valid::record_bad, laws::specs::Any::any))]
    pub fn is_bad(&self) -> bool
        ensures { result ≡ record_bad self.now.bytes.now }
    {
        area_bad(self.request_area(), self.request_length())
            || area_bad(self.response_area(), self.response_length())
            || !all_zero(self.zeros())
    }
}

// The same of one area, whose packet has n bytes: n is above 2,000, or a byte past the packet isn't zero.
#[tactic(auto, unfolding(crate::specs::Valid::area_bad, laws::specs::Any::any))]
fn area_bad(area: &[u8], n: usize) -> bool
    requires { length area.now ≡ AREA }
    ensures { result ≡ area_bad area.now n }
{
    AREA < n || !all_zero(&area[n..])
}
