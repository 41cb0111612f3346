// The records of a pile, and the parts of a record. Each is a part of the pile: nothing is copied.
ghost use Rattle.std.specs.Prelude.{◌≡◌, ◌+◌, ◌*◌, ◌≤◌, length};
ghost use Rattle.pile.specs.Layout.{RECORD, AREA};
ghost use Rattle.pile.specs.Pile.{record_at, key_in, rand_in, request_length, response_length, zeros_in, request_area};
ghost use Rattle.pile.specs.Pile.{response_area, request_packet, response_packet};

use super::layout::{KEY, RAND, RECORD, REQUEST, REQUEST_LENGTH, RESPONSE, RESPONSE_LENGTH, ZEROS};
use octets::le32;

// A record where it lies in its pile: it has all its 4,096 bytes.
#[derive(Clone, Copy)]
pub struct RecordBytes<'a> {
    pub bytes: &'a [u8],
    pub ghost long: { length bytes.now ≡ RECORD },
}

// Record k of a pile.
pub fn record_at(pile: &[u8], k: usize) -> RecordBytes<'_>
    requires { RECORD * k + RECORD ≤ length pile.now }
    ensures { result.bytes.now ≡ record_at pile.now k }
{
    let at = RECORD * k;
    RecordBytes {
        bytes: &pile[at..at + RECORD],
    }
}

impl<'a> RecordBytes<'a> {
    // The server's long-term key.
    pub fn key(&self) -> &'a [u8]
        ensures { result.now ≡ key_in self.now.bytes.now }
    {
        &self.bytes[KEY..RAND]
    }

    // The rand.
    pub fn rand(&self) -> &'a [u8]
        ensures { result.now ≡ rand_in self.now.bytes.now }
    {
        &self.bytes[RAND..REQUEST_LENGTH]
    }

    // How long the request is, as the record says it.
    pub fn request_length(&self) -> usize
        ensures { result ≡ request_length self.now.bytes.now }
    {
        le32(self.bytes, REQUEST_LENGTH) as usize
    }

    // And the response.
    pub fn response_length(&self) -> usize
        ensures { result ≡ response_length self.now.bytes.now }
    {
        le32(self.bytes, RESPONSE_LENGTH) as usize
    }

    // What must be zero between the lengths and the areas.
    pub fn zeros(&self) -> &'a [u8]
        ensures { result.now ≡ zeros_in self.now.bytes.now }
    {
        &self.bytes[ZEROS..REQUEST]
    }

    // The area of the request.
    pub fn request_area(&self) -> &'a [u8]
        ensures { (result.now ≡ request_area self.now.bytes.now) × (length result.now ≡ AREA) }
    {
        &self.bytes[REQUEST..RESPONSE]
    }

    // The area of the response.
    pub fn response_area(&self) -> &'a [u8]
        ensures { (result.now ≡ response_area self.now.bytes.now) × (length result.now ≡ AREA) }
    {
        &self.bytes[RESPONSE..RECORD]
    }

    // The request packet: the front of its area.
    pub fn request(&self) -> &'a [u8]
        requires { request_length self.now.bytes.now ≤ AREA }
        ensures { result.now ≡ request_packet self.now.bytes.now }
    {
        &self.request_area()[..self.request_length()]
    }

    // The response packet.
    pub fn response(&self) -> &'a [u8]
        requires { response_length self.now.bytes.now ≤ AREA }
        ensures { result.now ≡ response_packet self.now.bytes.now }
    {
        &self.response_area()[..self.response_length()]
    }
}
