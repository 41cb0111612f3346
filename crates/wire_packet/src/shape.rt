// The shape of a response: codes 4 to 7 of its message, and of SREP, CERT and DELE within.
ghost use Rattle.std.specs.Prelude.{◌≡◌};
ghost use Rattle.wire_message.specs.Rules.{message_code};
ghost use Rattle.wire_message.specs.Sentences.{Good};
ghost use Rattle.refusal.specs.Refusal.{passes, shifted};
ghost use Rattle.wire_packet.specs.Response.{cert, dele, dele_start, shape_code};
ghost use Rattle.wire_packet.specs.Tables.{dele_table};

use super::tables::{CERT_TABLE, DELE_TABLE, ROOT_TABLE, SREP_TABLE};
use refusal::Refusal;
use wire_message::tags::{CERT, DELE, SREP};
use wire_message::{message_code, value_code, value_of, value_start};

// Codes 4 to 7 of a response's message and of those in it, with their place in the message.
pub fn shape_code(m: &[u8]) -> Result<(), Refusal>
    ensures { result ≡ passes (shape_code m.now) }
{
    message_code(m, &ROOT_TABLE)?;
    value_code(m, SREP, &SREP_TABLE)?;
    value_code(m, CERT, &CERT_TABLE)?;
    dele_code(m)
}

// Codes 4 to 7 of DELE, which stands in CERT.
fn dele_code(m: &[u8]) -> Result<(), Refusal>
    requires { Good m.now × Good (cert m.now) }
    ensures { result
        ≡ passes (shifted (dele_start m.now) (message_code (dele m.now) dele_table)) }
{
    let start = value_start(m, CERT);
    value_code(value_of(m, CERT), DELE, &DELE_TABLE).map_err(|why| why.shifted(start))
}

// The value of DELE, which stands in CERT.
pub fn dele_of(m: &[u8]) -> &[u8]
    requires { Good m.now × Good (cert m.now) }
    ensures { result.now ≡ dele m.now }
{
    value_of(value_of(m, CERT), DELE)
}
